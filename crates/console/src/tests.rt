// The status of a good and of a bad outcome; and that the arguments are read.
use super::*;
use std::test::Fail;

#[test]
fn statuses(rt: HostRuntime) -> Result<(), Fail> {
    let good: Result<(), &str> = Ok(());
    let bad: Result<(), &str> = Err("a bad outcome, said on purpose");
    assert!(rt; status(&rt, "test", good)? == ExitCode::SUCCESS);
    assert!(rt; status(&rt, "test", bad)? == ExitCode::FAILURE);
    Ok(())
}

#[test]
fn words(rt: HostRuntime) {
    assert!(rt; arguments(&rt).is_ok());
}
