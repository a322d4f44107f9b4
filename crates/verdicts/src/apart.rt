// Whether two words were told apart, found by the order of the answers.
ghost use Rattle.std.specs.Prelude.{◌++◌};
ghost use Rattle.answers.specs.Logs.{told};
ghost use Rattle.verdicts.specs.Orders.{Other, Parts, shown_at};

use crate::order::Index;
use answers::apart::Apart;

impl Index<'_> {
    // The first answer to v with x behind it, if it says something else than answer i.
    pub(crate) fn other_than(&self, i: usize, v: &[u32], x: &[u32]) -> Option<usize>
        ensures { Other (told self.now.answers.now) (v.now ++ x.now) (shown_at (told self.now.answers.now) i) result }
    {
        let j = self.find(v, x)?;
        (self.shown_of(i) != self.shown_of(j)).then_some(j)
    }

    // Two answers that tell u and v apart, by looking for each answer that begins with u.
    fn from_left(&self, u: &[u32], v: &[u32]) -> Option<Apart>
        ensures { Parts (told self.now.answers.now) u.now v.now result }
    {
        let start = self.place_of(u);
        for left in &self.order[start..] {
            let x = self.word_of(*left).strip_prefix(u)?;
            if let Some(right) = self.other_than(*left, v, x) {
                return Some(Apart {
                    left: *left,
                    right,
                    from: u.len(),
                });
            }
        }
        None
    }

    // Two answers that tell u and v apart.
    pub(crate) fn apart(&self, u: &[u32], v: &[u32]) -> Option<Apart>
        ensures { Parts (told self.now.answers.now) u.now v.now result }
    {
        if u.len() >= v.len() {
            return self.from_left(u, v);
        }
        let found = self.from_left(v, u)?;
        Some(Apart {
            left: found.right,
            right: found.left,
            from: u.len(),
        })
    }
}
