// Connection URIs and password files, as libpq has them.
use super::OrFail;
use super::loopback::server_at;
use super::options::words;
use publisher_command::{
    Job, NOTHING_SAID, Parts, Variables, asks_tls, choose_server, find_password, parse,
    read_passfile, read_uri,
};
use server::host::Server;
use std::alloc::Global;
use std::fs::Permissions;
use std::os::unix::fs::PermissionsExt;
use std::process::Abort;
use std::test::Fail;
use std::{env, fs, process};
use testing::asserts::{assert_holds, assert_same};

/// A URI, and its host, port, user and database, or the fault.
static URIS: [(&str, &str); 26] = [
    ("postgresql://", "- - - -"),
    ("postgres://localhost", "localhost - - -"),
    ("postgresql://localhost/mydb", "localhost - - mydb"),
    (
        "postgresql://carol@localhost:5433/mydb",
        "localhost 5433 carol mydb",
    ),
    ("postgresql://carol@/mydb", "- - carol mydb"),
    ("postgresql://:5433", "- 5433 - -"),
    (
        "postgresql:///mydb?host=localhost&port=5433",
        "localhost 5433 - mydb",
    ),
    ("postgresql://h/a?dbname=b&user=u", "h - u b"),
    ("postgresql://%2Fvar%2Frun:5/d", "/var/run 5 - d"),
    ("postgresql://[2001:db8::1234]/d", "2001:db8::1234 - - d"),
    ("postgresql://u@[::1]:5433/d", "::1 5433 u d"),
    ("postgresql://h/my%20db%C3%A4", "h - - my db\u{e4}"),
    ("postgresql://h/a/b", "h - - a/b"),
    ("postgresql://h?", "h - - -"),
    (
        "postgresql://h?sslmode=disable&require_auth=scram-sha-256",
        "h - - -",
    ),
    ("postgresql://carol:secret@h/d", "Password"),
    ("postgresql://h/d?password=secret", "Password"),
    ("postgresql://one,two/d", "Hosts"),
    ("postgresql://[::1/d", "Spelling"),
    ("postgresql://[::1]5/d", "Spelling"),
    ("postgresql://h/%zz", "Spelling"),
    ("postgresql://h/%+1", "Spelling"),
    ("postgresql://h/%00", "Spelling"),
    ("postgresql://h/%ff", "Spelling"),
    ("postgresql://h?host", "Spelling"),
    ("postgresql://h?application_name=a", "Parameter"),
];

/// Host, port, user and database of what a URI says.
fn shown(alloc: Global, parts: &Parts) -> Result<String, Fail> {
    let host = parts.host.as_deref().unwrap_or("-");
    let port = parts.port.as_deref().unwrap_or("-");
    let user = parts.user.as_deref().unwrap_or("-");
    let database = parts.database.as_deref().unwrap_or("-");
    Ok(format!(in alloc; "{host} {port} {user} {database}")?)
}

#[test]
fn connection_uris(rt: HostRuntime) {
    for (uri, want) in &URIS {
        let read = match read_uri(rt.alloc(), *uri) {
            Some(Ok(parts)) => shown(rt.alloc(), &parts).or_fail(&rt),
            Some(Err(fault)) => format!(in rt.alloc(); "{fault:?}").or_fail(&rt),
            None => String::new(rt.alloc()),
        };
        assert_same(read.as_str(), *want, *uri).or_fail(&rt);
    }
    assert_holds(read_uri(rt.alloc(), "mydb").is_none(), "a name").or_fail(&rt);
}

/// Modes of TLS that don't ask for it, and such as do.
static MODES: [(bool, [&str; 3]); 2] = [
    (false, ["disable", "allow", "prefer"]),
    (true, ["require", "verify-ca", "verify-full"]),
];

#[test]
fn modes_that_ask_for_tls(rt: HostRuntime) {
    for (want, modes) in &MODES {
        for mode in modes {
            assert_same(asks_tls(*mode), *want, *mode).or_fail(&rt);
            let uri = format!(in rt.alloc(); "postgresql://h?sslmode={mode}").or_fail(&rt);
            let parts = read_uri(rt.alloc(), uri.as_str()).expect(&rt, "no URI");
            let tls = parts.ok().expect(&rt, "refused").tls;
            assert_same(tls, Some(*want), *mode).or_fail(&rt);
        }
    }
}

/// The words of a command for this database.
fn words_for(alloc: Global, database: &str) -> Result<Vec<String>, Fail> {
    let line = format!(in alloc; "publisher catalog --publication p --port 1 --dbname {database}")?;
    words(alloc, line.as_str())
}

/// No variables but who is logged in.
fn logged_in(alloc: Global) -> Result<Variables, Fail> {
    Ok(Variables {
        parts: NOTHING_SAID,
        password: None,
        login: Some(String::from_str(alloc, "carol")?),
    })
}

/// The server of both, unless the command is refused.
fn server_of<R: Abort + Eprint>(rt: &R, alloc: Global, database: &str) -> Option<Server> {
    let words = words_for(alloc, database).or_fail(rt);
    let options = parse(alloc, words.as_slice()).ok()?;
    assert!(rt;
        matches!(options.job, Job::Catalog { .. }),
        "another command"
    );
    let variables = logged_in(alloc).or_fail(rt);
    choose_server(alloc, &options, &variables).or_fail(rt)
}

/// What is given for the database, and the port and the database that are meant.
static DATABASES: [(&str, Option<(&str, &str)>); 6] = [
    ("mydb", Some(("1", "mydb"))),
    ("postgresql:///mydb", Some(("1", "mydb"))),
    ("postgresql://h:2/mydb", Some(("2", "mydb"))),
    ("postgresql://h:2", Some(("2", "carol"))),
    ("postgresql://h,i/mydb", None),
    ("dbname=mydb", None),
];

#[test]
fn a_uri_goes_before_options(rt: HostRuntime) {
    for (database, want) in &DATABASES {
        let server = server_of(&rt, rt.alloc(), *database);
        let found = match &server {
            Some(server) => Some((server.port.as_str(), server.database.as_str())),
            None => None,
        };
        assert_same(found, *want, *database).or_fail(&rt);
    }
}

/// Lines of a password file, and the password of alice for the database shop at port 5432 of the host db,
/// none for the empty text.
static LINES: [(&str, &str); 12] = [
    ("db:5432:shop:alice:secret", "secret"),
    ("*:*:*:*:secret", "secret"),
    ("db:5433:shop:alice:secret", ""),
    ("db:5432:shop:bob:secret", ""),
    ("db:5432:shopping:alice:secret", ""),
    ("#db:5432:shop:alice:secret", ""),
    (r"db:5432:shop:alice:a\:b\\c\", r"a:b\c\"),
    ("db:5432:shop:alice:a:b", "a"),
    (r"db:5432:s\hop:alice:secret", "secret"),
    ("db:5432:shop:alice", ""),
    ("db:1:*:*:one\r\ndb:*:*:*:two\r\n*:*:*:*:three", "two"),
    ("", ""),
];

/// The same of another host, or of a default directory of sockets.
static HOSTS: [(&str, &str, &str); 5] = [
    ("*:*:*:*:secret", "/nowhere", "secret"),
    ("localhost:*:*:*:secret", "/var/run/postgresql", "secret"),
    (
        "/var/run/postgresql:*:*:*:secret",
        "/var/run/postgresql",
        "",
    ),
    ("/nowhere:*:*:*:secret", "/nowhere", "secret"),
    (r"a\:b:*:*:*:secret", "a:b", "secret"),
];

/// The password of alice is this one, in these lines and for this host.
fn assert_password(alloc: Global, lines: &str, host: &str, want: &str) -> Result<(), Fail> {
    let server = server_at(alloc, host, "5432")?;
    let found = find_password(alloc, lines.as_bytes(), &server)?;
    let text = match &found {
        Some(password) => password.text.as_str(),
        None => "",
    };
    assert_same(text, want, lines)
}

#[test]
fn lines_of_a_password_file(rt: HostRuntime) {
    for (lines, want) in &LINES {
        assert_password(rt.alloc(), *lines, "db", *want).or_fail(&rt);
    }
    for (lines, host, want) in &HOSTS {
        assert_password(rt.alloc(), *lines, *host, *want).or_fail(&rt);
    }
}

/// The mode of a password file, and whether it is read.
static FILE_MODES: [(u32, bool); 5] = [
    (0o600, true),
    (0o400, true),
    (0o640, false),
    (0o604, false),
    (0o620, false),
];

/// Where a password file of this test may lie.
fn passfile(rt: &HostRuntime) -> Result<String, Fail> {
    let folder = env::temp_dir(rt)?;
    let number = process::id(rt.process());
    Ok(format!(in rt.alloc(); "{}/passfile-{number}", folder.as_str())?)
}

#[test]
fn a_password_file_is_its_owners_alone(rt: HostRuntime) {
    let path = passfile(&rt).or_fail(&rt);
    fs::write(&rt, path.as_str(), b"*:*:*:*:secret").or_fail(&rt);
    for (mode, want) in &FILE_MODES {
        fs::set_permissions(&rt, path.as_str(), Permissions::from_mode(*mode)).or_fail(&rt);
        let found = read_passfile(rt.alloc(), &rt, path.as_str()).or_fail(&rt);
        assert_same(found.is_empty(), !*want, *mode).or_fail(&rt);
    }
    fs::remove_file(&rt, path.as_str()).or_fail(&rt);
    let found = read_passfile(rt.alloc(), &rt, path.as_str()).or_fail(&rt);
    assert_holds(found.is_empty(), "no file").or_fail(&rt);
}

/// What can't be read has no passwords: of the second the first byte is none of this process.
#[test]
fn a_password_file_that_cannot_be_read(rt: HostRuntime) {
    for path in ["/", "/proc/self/mem"] {
        assert_holds(
            read_passfile(rt.alloc(), &rt, path).or_fail(&rt).is_empty(),
            path,
        )
        .or_fail(&rt);
    }
}
