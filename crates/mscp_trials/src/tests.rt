// The tests of all libraries that want public calls alone. They stand in a crate of their own, so that no library is
// proved once more for them.
//
// `packets`, `drives`, `queues`, `controllers`, `hosts` and `talks` try a library each: whether its clauses say what
// is meant, and that its calls are there. The others are what a user meets on the worst day: memory that is refused at
// each request, streams that fail at each call, and scripts that mean no good. What the C library shows is tried in
// tests/c, where a test costs no proof.

mod calls;
mod checks;
mod controllers;
mod drives;
mod entries;
mod first;
mod giving_up;
mod hosts;
mod memory;
mod messages;
mod moments;
mod packets;
mod queues;
mod rounds;
mod scripts;
mod streams;
mod talks;
mod texts;
mod told;
mod values;

/// The configuration of 4 credits and a budget of 16 blocks, as the header of a script.
const HEADER: &str = "credits 4
passing 2
longest 8
timeout 60
unit 0 10 2 1 1000
go
";
