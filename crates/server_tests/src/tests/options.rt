// The command line of `publisher`, and libpq's variables.
use super::OrFail;
use publisher_command::{Job, NOTHING_SAID, Parts, Variables};
use server::auth::{Password, Ways};
use server::host::Server;
use std::alloc::Global;
use std::process::Abort;
use std::test::Fail;
use testing::asserts::{assert_holds, assert_same};

/// The words of a command line.
pub fn words(alloc: Global, line: &str) -> Result<Vec<String>, Fail> {
    let mut words = Vec::new(alloc);
    for word in line.split(' ') {
        words.push(String::from_str(alloc, word)?)?;
    }
    Ok(words)
}

/// An option of `capture` with its value, and whether it is read.
static VALUES: [(&str, bool); 23] = [
    ("--timeout 1", true),
    ("--timeout 0", false),
    ("--timeout 1000000001", false),
    ("--timeout +1", false),
    ("--seconds 10", true),
    ("--seconds ", false),
    ("--until 0/0", true),
    ("--until FFFFFFFF/ffffffff", true),
    ("--until 1/2A", true),
    ("--until 12A", false),
    ("--until 1/100000000", false),
    ("--until 1/", false),
    ("--require-auth scram-sha-256,md5", true),
    ("--require-auth !password,!none", true),
    ("--require-auth !password,none", false),
    ("--require-auth md5,password,md5", false),
    ("--require-auth !gss,!gss", false),
    ("--require-auth kerberos", false),
    ("--require-auth ", false),
    ("--create --copy", true),
    ("--copy", false),
    ("--append", true),
    ("--create --append", false),
];

#[test]
fn values_within_their_limits(rt: HostRuntime) {
    for (option, want) in &VALUES {
        let line = format!(in rt.alloc();
            "publisher capture --publication p --slot s --out f {option}"
        ).or_fail(&rt);
        let words = words(rt.alloc(), line.as_str()).or_fail(&rt);
        let read = publisher_command::parse(rt.alloc(), words.as_slice()).is_ok();
        assert_same(read, *want, *option).or_fail(&rt);
    }
}

#[test]
fn a_usage_fault_names_option_and_value(rt: HostRuntime) {
    let line = "publisher capture --publication p --slot s --out f --until 1/G";
    let words = words(rt.alloc(), line).or_fail(&rt);
    let text = match publisher_command::parse(rt.alloc(), words.as_slice()) {
        Ok(_) => format!(in rt.alloc(); "read").or_fail(&rt),
        Err(error) => format!(in rt.alloc(); "{error}").or_fail(&rt),
    };
    let first = "error: invalid value '1/G' for '--until': an LSN as 1/2A\n";
    assert_holds(text.as_str().starts_with(first), text.as_str()).or_fail(&rt);
}

#[test]
fn a_version_is_said_on_standard_output(rt: HostRuntime) {
    let words = words(rt.alloc(), "publisher --version").or_fail(&rt);
    let Err(said) = publisher_command::parse(rt.alloc(), words.as_slice()) else {
        panic!(rt; "a command");
    };
    assert_holds(!said.use_stderr(), "standard output").or_fail(&rt);
    let text = format!(in rt.alloc(); "{said}").or_fail(&rt);
    assert_same(text.as_str(), "publisher 0.1.0\n", "version").or_fail(&rt);
}

const CAPTURE: &str =
    "publisher capture --publication p --slot s --out f --until 1/2A --create --seconds 7";

#[test]
fn a_place_is_two_halves(rt: HostRuntime) {
    let words = words(rt.alloc(), CAPTURE).or_fail(&rt);
    let options = publisher_command::parse(rt.alloc(), words.as_slice())
        .ok()
        .expect(&rt, "refused");
    let Job::Capture {
        slot,
        out,
        append,
        bounds,
    } = options.job
    else {
        panic!(rt; "another command");
    };
    assert_holds(
        slot.name == "s" && slot.create && !slot.copy && out == "f" && !append,
        "slot and file",
    )
    .or_fail(&rt);
    let found = (bounds.until, bounds.millis);
    assert_same(found, (Some(0x1_0000_002a), Some(7000)), "bounds").or_fail(&rt);
}

/// Variables for the host, TLS, the password, other ways to log in and who is logged in.
fn set_variables(alloc: Global) -> Result<Variables, Fail> {
    Ok(Variables {
        parts: Parts {
            host: Some(String::from_str(alloc, "db.example")?),
            ways: Some(Ways::NONE),
            tls: Some(true),
            ..NOTHING_SAID
        },
        password: Some(Password {
            text: String::from_str(alloc, "secret")?,
        }),
        login: Some(String::from_str(alloc, "carol")?),
    })
}

/// The server of options for the port and how to log in, and of these variables.
fn chosen<R: Abort + Eprint>(rt: &R, alloc: Global) -> Server {
    let line = "publisher catalog --publication p --port 5433 --require-auth md5 --allow-cleartext";
    let words = words(alloc, line).or_fail(rt);
    let options = publisher_command::parse(alloc, words.as_slice())
        .ok()
        .expect(rt, "refused");
    let variables = set_variables(alloc).or_fail(rt);
    publisher_command::choose_server(alloc, &options, &variables)
        .or_fail(rt)
        .expect(rt, "no user")
}

/// MD5 alone.
const MD5: Ways = Ways {
    md5: true,
    ..Ways::NONE
};

#[test]
fn options_go_before_variables(rt: HostRuntime) {
    let server = chosen(&rt, rt.alloc());
    let place = (server.host.as_str(), server.port.as_str());
    assert_same(place, ("db.example", "5433"), "host and port").or_fail(&rt);
    let names = (server.user.as_str(), server.database.as_str());
    assert_same(names, ("carol", "carol"), "user and database").or_fail(&rt);
    assert_same(server.ways, MD5, "ways").or_fail(&rt);
    assert_holds(server.tls && server.clear_text, "TLS and clear text").or_fail(&rt);
    let password = server.password.as_ref().expect(&rt, "no password");
    assert_same(password.text.as_str(), "secret", "password").or_fail(&rt);
}
