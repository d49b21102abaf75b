//! Scenes of a book. `test_runs` plays them. They stand here and not there: of the checks that can
//! begin, `rt ci` begins the one with the most lines first, and the crates of the program are to
//! begin before these tests.

/// Scenes of a book of one server and one client with two operations. A title begins with the
/// interval and the window of the scene. An order names its branch first. An answer has the place,
/// the clock and why a command stopped; with a jump also the turns, copies and undos that it took.
///
/// `here` shows the clock of a branch's world, whether a step can happen there, and whether its
/// tape is warm. `count` shows all turns, copies and undos of the book so far.
pub const SCENES: &str = "\
#4 2 A run is walked back.
step 0: 1 0 Asked
step 0: 2 0 Asked
step 0: 3 10 Asked
step 0: 4 20 Asked
step 0: 5 30 Asked
step 0: 6 40 Asked
step 0: Idle
here 0: Some((40, Err(Idle))) Some(true)
back 0 6: 0 0 Asked
summary 0: 0 Summary { clock: 0, serial: 2, net: 0, torn: 0, pending: 2, held: 0 }
forward 0 6: 6 40 Asked
summary 0: 6 Summary { clock: 40, serial: 6, net: 8, torn: 0, pending: 0, held: 0 }
#4 2 A release is undone.
hold 0 0 1: 1 0 Asked
step 0: 2 0 Asked
step 0: 3 0 Asked
release 0 0 1: 4 0 Asked
next 0: 4 Next(Some(Coming { due: 0, serial: 2, host: 0, kind: Message }))
back 0 1: 3 0 Asked
summary 0: 3 Summary { clock: 0, serial: 2, net: 0, torn: 0, pending: 0, held: 1 }
forward 0 1: 4 0 Asked
next 0: 4 Next(Some(Coming { due: 0, serial: 2, host: 0, kind: Message }))
#4 2 A crash is undone, of a host that runs and of one that is stopped.
crash 0 0: 1 0 Asked
summary 0: 1 Summary { clock: 0, serial: 2, net: 0, torn: 0, pending: 1, held: 0 }
back 0 1: 0 0 Asked
summary 0: 0 Summary { clock: 0, serial: 2, net: 0, torn: 0, pending: 2, held: 0 }
forward 0 1: 1 0 Asked
crash 0 0: 2 0 Asked
summary 0: 2 Summary { clock: 0, serial: 2, net: 0, torn: 0, pending: 1, held: 0 }
back 0 1: 1 0 Asked
summary 0: 1 Summary { clock: 0, serial: 2, net: 0, torn: 0, pending: 1, held: 0 }
forward 0 1: 2 0 Asked
bounce 0 0: 3 0 Asked
summary 0: 3 Summary { clock: 0, serial: 3, net: 0, torn: 0, pending: 2, held: 0 }
#4 2 A tail is cut.
step 0: 1 0 Asked
step 0: 2 0 Asked
step 0: 3 10 Asked
step 0: 4 20 Asked
step 0: 5 30 Asked
step 0: 6 40 Asked
back 0 2: 4 20 Asked
freeze 0: frozen 6
cut 0: 4 20 Asked
freeze 0: frozen 4
step 0: 5 30 Asked
step 0: 6 40 Asked
freeze 0: frozen 6
#4 2 Adding an event counts a turn, and the copies of each checkpoint.
count: (2, 2, 0)
step 0: 1 0 Asked
count: (3, 2, 0)
step 0: 2 0 Asked
count: (4, 2, 0)
step 0: 3 10 Asked
count: (5, 2, 0)
step 0: 4 20 Asked
count: (6, 4, 0)
step 0: 5 30 Asked
count: (7, 4, 0)
step 0: 6 40 Asked
count: (8, 4, 0)
#4 2 Jumps after steps take the nearest way.
step 0: 1 0 Asked
step 0: 2 0 Asked
step 0: 3 10 Asked
step 0: 4 20 Asked
step 0: 5 30 Asked
step 0: 6 40 Asked
goto 0 5: 5 30 Asked by (0, 0, 1)
freeze 0: frozen 6
goto 0 1: 1 0 Asked by (1, 2, 0)
freeze 0: frozen 6
goto 0 4: 4 20 Asked by (0, 2, 0)
freeze 0: frozen 6
goto 0 6: 6 40 Asked by (2, 0, 0)
freeze 0: frozen 6
#4 2 Jumps after a run take the nearest way.
run 0 100: 6 40 AllDone
goto 0 5: 5 30 Asked by (0, 0, 1)
here 0: Some((30, Ok(()))) Some(true)
here 1: None None
goto 0 1: 1 0 Asked by (1, 2, 0)
here 0: Some((0, Ok(()))) Some(true)
here 1: None None
goto 0 4: 4 20 Asked by (0, 2, 0)
here 0: Some((20, Ok(()))) Some(true)
here 1: None None
#1 1 After steps, each event has its checkpoint.
step 0: 1 0 Asked
step 0: 2 0 Asked
step 0: 3 10 Asked
step 0: 4 20 Asked
step 0: 5 30 Asked
step 0: 6 40 Asked
goto 0 2: 2 0 Asked by (0, 2, 0)
freeze 0: frozen 6
#1 1 After a run, each event has its checkpoint.
run 0 100: 6 40 AllDone
goto 0 2: 2 0 Asked by (0, 2, 0)
here 0: Some((0, Ok(()))) Some(true)
here 1: None None
#4 2 The server crashes on a branch, before and after its origin goes on.
step 0: 1 0 Asked
step 0: 2 0 Asked
step 0: 3 10 Asked
branch 0 3: made 1
here 1: None Some(false)
cut 1: 3 10 Asked
freeze 1: frozen 3
crash 1 0: 4 10 Asked
step 1: 5 20 Asked
step 1: 6 30 Asked
step 1: Idle
here 1: Some((30, Err(Idle))) Some(true)
summary 1: 6 Summary { clock: 30, serial: 5, net: 6, torn: 0, pending: 0, held: 0 }
step 0: 4 20 Asked
step 0: 5 30 Asked
step 0: 6 40 Asked
branch 0 3: made 2
here 2: None Some(false)
cut 2: 3 10 Asked
freeze 2: frozen 3
crash 2 0: 4 10 Asked
step 2: 5 20 Asked
step 2: 6 30 Asked
step 2: Idle
here 2: Some((30, Err(Idle))) Some(true)
summary 2: 6 Summary { clock: 30, serial: 5, net: 6, torn: 0, pending: 0, held: 0 }
goto 0 4: 4 20 Asked by (0, 0, 2)
freeze 0: frozen 6
#4 2 Refusals before the end of a branch come in order.
run 0 100: 6 40 AllDone
back 0 1: 5 30 Asked
hold 0 0 0: SameHost
hold 0 9 9: UnknownHost
hold 0 0 1: NotAtEnd
crash 0 2: UnknownHost
goto 0 9: TooFar by (0, 0, 0)
step 0: NotAtEnd
step 9: UnknownBranch
unwatch 0 0: UnknownWatch
link 0 1 1: SameHost
probe 0 0 9: BadCondition
watch_nothing 0: BadCondition
freeze 0: frozen 6
#4 2 A rewind past the window, and what follows the first run from there.
run 0 100: 6 40 AllDone
watch 0: made 0
rewind 0 6: 3 10 Watch(0)
unwatch 0 0: dropped 0
forward 0 1: 4 20 Asked
cut 0: 4 20 Asked
step 0: 5 30 Asked
branch 0 5: made 1
crash 1 0: 6 30 Asked
summary 1: 6 Summary { clock: 30, serial: 6, net: 8, torn: 0, pending: 1, held: 0 }
run 1 9: 7 40 AllDone
tick 0: 7 130 AllDone
";
