// What a test asserts. Each assertion stands here once: it costs the prover a second or two wherever it stands, and a
// call of these next to nothing.

ghost use Rattle.std.specs.Prelude.{IsTrue};

use std::fmt::Debug;
use std::process::Abort;

/// What was made is what is wanted.
pub fn same<T: PartialEq + Debug + Drop>(rt: &impl Abort, made: T, wanted: T) {
    assert_eq!(rt; made, wanted);
}

/// The same, where one call stands for many rows: this is the row.
pub fn same_of<R: Debug + Drop, T: PartialEq + Debug + Drop>(
    rt: &impl Abort,
    row: R,
    made: T,
    wanted: T,
) {
    assert_eq!(rt; made, wanted, "of {row:?}");
}

/// It is so.
pub fn holds(rt: &impl Abort, it: bool)
    ensures { IsTrue it }
{
    assert!(rt; it);
}

/// What a call gives that nothing hinders. A test that hands a fault on has a way out at each call, and is dear.
pub fn got<T: Drop, E: Drop>(rt: &impl Abort, answer: Result<T, E>) -> T {
    answer.ok().expect(rt, "no fault")
}
