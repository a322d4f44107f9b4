// A word in several spellings.
use crate::Spelling;

#[test]
fn spellings(rt: HostRuntime) {
    let one = Spelling {
        front: &[1, 0],
        key: Some(2),
        rest: &[5],
    };
    let other = Spelling {
        front: &[1],
        key: Some(0),
        rest: &[2, 5],
    };
    assert_eq!(rt; one.count(), 4);
    assert_eq!(rt; one.letter(2), 2);
    assert_eq!(rt; one.letter(4), 0);
    assert!(rt; one.same(&other));
    assert!(rt; one.is_word(&[1, 0, 2, 5]));
    assert!(rt; !one.is_word(&[1, 0, 2]));
}

#[test]
fn written(rt: HostRuntime) {
    let word = Spelling {
        front: &[1, 0],
        key: None,
        rest: &[5],
    };
    let mut out = [9u32, 9, 9, 9];
    assert!(rt; word.write(&mut out));
    assert_eq!(rt; out, [1, 0, 5, 9]);
    let mut short = [9u32, 9];
    assert!(rt; !word.write(&mut short));
    assert_eq!(rt; short, [9, 9]);
}
