// Whether two words were told apart, by looking at each pair of answers.
ghost use Rattle.std.specs.Prelude.{◌≡◌, ℕ, ◌<◌, length, Decides, MatchOption};
ghost use Rattle.machines.specs.Answers.{Said, ToldApart};
ghost use Rattle.answers.specs.Logs.{told_of, told, GoOnAlike, ApartBy, Partner};
ghost use Rattle.answers.specs.Evidence.{Evidence};

use crate::log::Answer;

// Two answers, by their numbers, that tell two words apart; what stands behind both words begins at `from` in the left answer's word.
#[derive(Clone, Copy, PartialEq, Eq, Debug)]
pub struct Apart {
    pub left: usize,
    pub right: usize,
    pub from: usize,
}

// Whether the words go on behind u and v with the same letters.
fn same_behind(a: &[u32], u: &[u32], b: &[u32], v: &[u32]) -> bool
    ensures { Decides result (GoOnAlike u.now v.now a.now b.now) }
{
    let Some(x) = a.strip_prefix(u) else {
        return false;
    };
    let Some(y) = b.strip_prefix(v) else {
        return false;
    };
    x == y
}

// Whether the two answers tell u and v apart.
fn parts(a: &Answer, u: &[u32], b: &Answer, v: &[u32]) -> bool
    ensures { Decides result (ApartBy u.now v.now (told_of a.now) (told_of b.now)) }
{
    a.shown != b.shown && same_behind(a.word.as_slice(), u, b.word.as_slice(), v)
}

// An answer that tells u and v apart with this one.
fn partner(answers: &[Answer], a: &Answer, u: &[u32], v: &[u32]) -> Option<usize>
    ensures { Partner u.now v.now (told_of a.now) (told answers.now) result }
{
    answers.iter().position(|b| parts(a, u, b, v))
}

// Whether u and v were told apart, and by which answers.
pub fn told_apart(answers: &[Answer], u: &[u32], v: &[u32]) -> Option<Apart>
    ensures { MatchOption result (ToldApart (Said (told answers.now)) u.now v.now → ⊥) (Evidence (told answers.now) u.now v.now) }
{
    for (i, a) in answers.iter().enumerate() {
        if let Some(j) = partner(answers, a, u, v) {
            return Some(Apart {
                left: i,
                right: j,
                from: u.len(),
            });
        }
    }
    None
}
