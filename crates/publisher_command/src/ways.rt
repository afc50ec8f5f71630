// The ways to authenticate that libpq's `require_auth` lists (PostgreSQL manual: Parameter Key Words).
use server::auth::Ways;

/// Reads a list of ways parted by commas: those that are taken, or each behind `!` those that are not. None
/// for a list that libpq refuses, as one that has a way twice. `gss` and `sspi` are names of it, and never
/// taken here.
pub fn read_ways(text: &str) -> Option<Ways> {
    let negated = text.starts_with("!");
    let mut ways = if negated { Ways::ALL } else { Ways::NONE };
    for (index, word) in text.split(',').enumerate() {
        let word = word.trim_matches(' ');
        let mut before = text.split(',').take(index);
        if before.any(|other| other.trim_matches(' ') == word) {
            return None;
        }
        let name = match word.strip_prefix("!") {
            Some(name) if negated => name,
            None if !negated => word,
            _ => return None,
        };
        set_way(&mut ways, name, !negated)?;
    }
    Some(ways)
}

fn set_way(ways: &mut Ways, name: &str, taken: bool) -> Option<()> {
    match name {
        "none" => ways.none = taken,
        "password" => ways.password = taken,
        "md5" => ways.md5 = taken,
        "scram-sha-256" => ways.scram = taken,
        "gss" | "sspi" => {}
        _ => return None,
    }
    Some(())
}
