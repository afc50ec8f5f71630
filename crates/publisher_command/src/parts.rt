// What one source says of a server: a connection URI, or libpq's variables.
use server::auth::Ways;

/// Where a server is and who connects, as far as one source says it.
#[derive(Debug, Drop)]
pub struct Parts {
    /// A host, or the directory of a Unix socket.
    pub host: Option<String>,
    /// The port.
    pub port: Option<String>,
    /// The role that logs in.
    pub user: Option<String>,
    /// The database.
    pub database: Option<String>,
    /// The ways to authenticate that are taken.
    pub ways: Option<Ways>,
    /// Whether TLS is asked for.
    pub tls: Option<bool>,
}

/// Nothing is said.
pub const NOTHING_SAID: Parts = Parts {
    host: None,
    port: None,
    user: None,
    database: None,
    ways: None,
    tls: None,
};

/// Whether a mode of libpq's `sslmode` asks for TLS: it isn't `disable`, `allow` or `prefer`.
pub fn asks_tls(mode: &str) -> bool {
    !["disable", "allow", "prefer"].contains(&mode)
}
