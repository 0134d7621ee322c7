use scripting::bench::Bench;
use scripting::notes::Blank;
use std::test::Fail;

// Where there is memory, what takes some is made; no note is in hand then.
#[test]
fn what_takes_memory_is_made(rt: HostRuntime) -> Result<(), Fail> {
    let blank = Blank::new(rt.alloc())?;
    blank.end();
    let bench = Bench::new(rt.alloc())?;
    assert!(rt; bench.book().is_none());
    assert_eq!(rt; bench.close(), [false; 128]);
    Ok(())
}
