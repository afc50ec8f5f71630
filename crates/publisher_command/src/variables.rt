// libpq's variables, and the server that a URI, options and variables mean.
ghost use Rattle.std.specs.Prelude.{◌≡◌, ◌≤◌, None, option_copied, IfOk, IfSome, MatchOption};
ghost use Rattle.publisher_command.specs.Choosing.{said, named_user, IsMeant};

use crate::command_line::Options;
use crate::parts::Parts;
use server::auth::{Password, Ways};
use server::host::Server;
use std::alloc::{AllocError, Global};

/// libpq's variables that are set.
#[derive(Debug, Drop)]
pub struct Variables {
    /// PGHOST, PGPORT, PGUSER, PGDATABASE, PGREQUIREAUTH and PGSSLMODE.
    pub parts: Parts,
    /// PGPASSWORD.
    pub password: Option<Password>,
    /// The name of who is logged in, `USER`.
    pub login: Option<String>,
}

/// Where Debian's server has its Unix socket.
pub(crate) const SOCKETS: &str = "/var/run/postgresql";

/// What the URI says, else the options that were given, else the variables that are set, else libpq's
/// defaults. None where no user is named.
pub fn choose_server(
    alloc: Global,
    options: &Options<'_>,
    variables: &Variables,
) -> Result<Option<Server>, AllocError>
    ensures meant { IfOk result (λ chosen. MatchOption chosen (named_user options.now variables.now ≡ None) (IsMeant options.now variables.now)) }
    ensures limit { IfOk result (λ chosen. IfSome chosen (λ server. 1000 ≤ server.limit)) }
{
    let uri = &options.uri;
    let set = &variables.parts;
    let login = variables.login.as_deref();
    let named = first(&uri.user, options.user, &set.user).or(login);
    let Some(user) = named else {
        return Ok(None);
    };
    let host = first(&uri.host, options.host, &set.host).unwrap_or(SOCKETS);
    let port = first(&uri.port, options.port, &set.port).unwrap_or("5432");
    let database = first(&uri.database, options.database, &set.database).unwrap_or(user);
    Ok(Some(Server {
        host: String::from_str(alloc, host)?,
        port: String::from_str(alloc, port)?,
        user: String::from_str(alloc, user)?,
        database: String::from_str(alloc, database)?,
        password: match &variables.password {
            Some(password) => Some(Password {
                text: password.text.clone()?,
            }),
            None => None,
        },
        limit: options.limit,
        ways: uri.ways.or(options.ways).or(set.ways).unwrap_or(Ways::ALL),
        clear_text: options.clear_text,
        tls: uri.tls.or(set.tls).unwrap_or(false),
    }))
}

/// What the URI says, else what an option says, else what a variable says.
fn first<'a>(
    uri: &'a Option<String>,
    option: Option<&'a str>,
    variable: &'a Option<String>,
) -> Option<&'a str>
    ensures { option_copied result ≡ said uri.now (option_copied option.entry) variable.now }
{
    uri.as_deref().or(option).or(variable.as_deref())
}
