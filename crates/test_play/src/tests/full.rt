//! Tables that are full: branches, watches, commands, events and held messages.
use super::scenes::plays;
use std::test::Fail;

/// The only interval and window, since these plays are long.
const GRAIN: &str = "checkpoint = 4 -> checkpoint = 1024";

/// Rows as in `plays`, for the first format.
const ROWS: &str = r#"# 64 branches; a late one is traced.
- | ---; ~64*branch 0; ~@63 step; @64 step; @60 crash a; @60 trace | made 1; made 2; made 3; made 4; made 5; made 6; made 7; made 8; made 9; made 10; made 11; made 12; made 13; made 14; made 15; made 16; made 17; made 18; made 19; made 20; made 21; made 22; made 23; made 24; made 25; made 26; made 27; made 28; made 29; made 30; made 31; made 32; made 33; made 34; made 35; made 36; made 37; made 38; made 39; made 40; made 41; made 42; made 43; made 44; made 45; made 46; made 47; made 48; made 49; made 50; made 51; made 52; made 53; made 54; made 55; made 56; made 57; made 58; made 59; made 60; made 61; made 62; made 63; refused 8 BranchesFull; place 1 clock 0; refused 1 UnknownBranch; place 1 clock 0; {"branch":60,"events":["crash a"]}
# 8 watches on a branch.
- | ---; ~9*watch up a; ~unwatch 3; watch up w | made 0; made 1; made 2; made 3; made 4; made 5; made 6; made 7; refused 9 WatchesFull; dropped 3; made 3
# 65,536 commands.
- | ---; ~65536*cut; ~cut | ~65536*place 0 clock 0; ~not taken HistoryFull
# 65,536 events on a branch.
loss = 0 -> loss = 1000 & "echo" -> "primary_backup" & ["a"] -> ["a", "b"] & ops = 2 -> ops = 1 | ---; run 999999999; look; step; back 1; step; cut; step | place 65536 clock 13106600 full; place 65536 clock 13106600 serial 65537 net 131068 torn 0 pending 1 held 0; refused 6 EventsFull; place 65535 clock 13106400; refused 4 NotAtEnd; place 65535 clock 13106400; place 65536 clock 13106600
# A trace of 5,000 events.
loss = 0 -> loss = 1000 & "echo" -> "primary_backup" & ["a"] -> ["a", "b"] & ops = 2 -> ops = 1 | ---; run 5000; trace | place 5000 clock 999400; {"branch":0,"events":["step"~4999*,"step"~]}
# 4,096 held messages.
"echo" -> "primary_backup" & ["a"] -> ["a", "b"] & ops = 2 -> ops = 1 | ---; hold a w; run 5000; look; release a w; look; back 1; look | place 1 clock 0; place 5001 clock 999400; place 5001 clock 999400 serial 5001 net 0 torn 0 pending 1 held 4096; place 5002 clock 999400; place 5002 clock 999400 serial 9097 net 0 torn 0 pending 4097 held 0; place 5001 clock 999400; place 5001 clock 999400 serial 5001 net 0 torn 0 pending 1 held 4096"#;

#[test]
fn fills_each_table(rt: HostRuntime) -> Result<(), Fail> {
    plays(&rt, rt.alloc(), "-", GRAIN, ROWS)
}
