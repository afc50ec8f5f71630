// What a command says where it can't go on, and what it writes at its end.
use crate::tests::progress::Host;
use pgapply_command::execute::Ended;
use pgapply_command::output::{Failure, print, say_failure};
use std::io;
use std::test::Fail;
use testing::asserts::assert_same;

#[test]
fn what_a_command_cannot_do(rt: HostRuntime) -> Result<(), Fail> {
    let cases: [(Failure<'_>, bool, &str); 3] = [
        (
            Failure::Open("a.toml"),
            false,
            "pgapply: cannot open a.toml\n",
        ),
        (
            Failure::Connect("h:1"),
            false,
            "pgapply: cannot connect h:1\n",
        ),
        (
            Failure::Open("a.toml"),
            true,
            "pgapply: cannot open a.toml\npgapply: entity not found\n",
        ),
    ];
    for (failure, verbose, want) in &cases {
        let host = Host::new(rt.alloc());
        let error = io::Error::from(io::ErrorKind::NotFound);
        let status = say_failure(&host, *verbose, *failure, &error)?;
        assert_same(status, 1, *want)?;
        let said = host.into_said();
        assert_same(said.as_str(), *want, "said")?;
    }
    Ok(())
}

#[test]
fn a_report_that_cannot_be_written(rt: HostRuntime) -> Result<(), Fail> {
    let ended = Ended {
        status: 3,
        line: "",
    };
    let mut room = [0u8; 4];
    for (size, status, want) in [(4, 3, ""), (3, 1, "pgapply: cannot write\n")] {
        let host = Host::new(rt.alloc());
        let mut stdout: &mut [u8] = &mut room[..size];
        let found = print(&host, false, &mut stdout, b"rows", ended)?;
        assert_same(found, status, "status")?;
        let said = host.into_said();
        assert_same(said.as_str(), want, "said")?;
    }
    assert_same(room, *b"rows", "room")
}
