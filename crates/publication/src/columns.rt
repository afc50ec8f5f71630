// How a column of the server is kept: the subscriber's type, and a constant default.
ghost use Rattle.std.specs.Prelude.{◌≡◌, IfOk, IsTrue};
ghost use Rattle.publication.specs.Types.{kind_of, name_of, is_default_of};
ghost use Rattle.publication.specs.declared.columns.Kind.TheVariants.{Int};

use server::fault::Fault;
use std::alloc::Global;

/// A type of the subscriber.
#[derive(Clone, Copy, Debug, PartialEq, Eq)]
pub enum Kind {
    /// A number of 64 bits.
    Int,
    /// A text.
    Text,
    /// A truth value.
    Bool,
}

impl Kind {
    /// Its name in a catalog.
    pub fn name(self) -> &'static str
        ensures { result.now ≡ name_of self }
    {
        match self {
            Kind::Int => "int",
            Kind::Text => "text",
            Kind::Bool => "bool",
        }
    }
}

/// The server's type below any domains, by the OIDs that never change (`pg_type.dat`).
#[derive(Clone, Copy, Debug)]
pub struct ServerType {
    /// Its OID.
    pub oid: u32,
    /// Whether it is an enumeration.
    pub is_enum: bool,
    /// The OID of an array's elements, else 0.
    pub element: u32,
    /// Whether an array's elements are of an enumeration.
    pub has_enums: bool,
}

impl ServerType {
    /// The subscriber's own type: int2, int4 and int8, text and varchar, bool.
    pub fn kind(&self) -> Option<Kind>
        ensures { result ≡ kind_of self.now.oid }
    {
        match self.oid {
            20 | 21 | 23 => Some(Kind::Int),
            25 | 1043 => Some(Kind::Text),
            16 => Some(Kind::Bool),
            _ => None,
        }
    }

    /// Whether two values are the same just where their texts are, under settings that publisher sets at
    /// each connection.
    pub fn has_faithful_text(&self) -> bool {
        self.is_enum
            || is_faithful(self.oid)
            || (self.element != 0 && (self.has_enums || is_faithful(self.element)))
    }
}

/// Types whose text says the value and depends on no other object of the database.
fn is_faithful(oid: u32) -> bool {
    match oid {
        // bool, bytea, "char", name, int8, int2, int4, text, oid, json
        16..=21 | 23 | 25 | 26 | 114 => true,
        // point, lseg, path, box, polygon, line, circle, float4, float8
        600..=604 | 628 | 718 | 700 | 701 => true,
        // cidr, macaddr8, macaddr, inet
        650 | 774 | 829 | 869 => true,
        // bpchar, varchar, date, time, timestamp, timestamptz, interval, timetz
        1042 | 1043 | 1082 | 1083 | 1114 | 1184 | 1186 | 1266 => true,
        // bit, varbit, numeric, uuid, pg_lsn, jsonb
        1560 | 1562 | 1700 | 2950 | 3220 | 3802 => true,
        // int4range, numrange, tsrange, tstzrange, daterange, int8range
        3904 | 3906 | 3908 | 3910 | 3912 | 3926 => true,
        _ => false,
    }
}

/// A column's default.
#[derive(Debug, PartialEq, Eq, Drop)]
pub enum DefaultValue {
    /// None, or null.
    Null,
    /// A number.
    Int(i64),
    /// A text.
    Text(String),
    /// A truth value.
    Bool(bool),
    /// An expression that is no constant of the type.
    Other,
}

/// Reads a default as `pg_get_expr` prints it: a number, a quoted text or a word, perhaps with a cast.
pub fn read_default(alloc: Global, kind: Kind, expression: &str) -> Result<DefaultValue, Fault>
    ensures { IfOk result (λ value. IsTrue (is_default_of kind value)) }
{
    if let Some(constant) = unquoted(alloc, expression)? {
        return Ok(typed(kind, constant));
    }
    let bare = expression.strip_prefix("(").unwrap_or(expression);
    let bare = bare.strip_suffix(")").unwrap_or(bare);
    Ok(match (kind, bare) {
        (_, "NULL") => DefaultValue::Null,
        (Kind::Bool, "true") => DefaultValue::Bool(true),
        (Kind::Bool, "false") => DefaultValue::Bool(false),
        (Kind::Int, number) => int_default(number),
        (_, other) => match other.strip_prefix("NULL::") {
            Some(cast) if is_cast(cast) => DefaultValue::Null,
            _ => DefaultValue::Other,
        },
    })
}

/// A text constant as a default of a type.
fn typed(kind: Kind, constant: String) -> DefaultValue
    ensures { IsTrue (is_default_of kind result) }
{
    match kind {
        Kind::Int => int_default(constant.as_str()),
        Kind::Text => DefaultValue::Text(constant),
        Kind::Bool => match constant.as_str() {
            "t" | "true" => DefaultValue::Bool(true),
            "f" | "false" => DefaultValue::Bool(false),
            _ => DefaultValue::Other,
        },
    }
}

fn int_default(text: &str) -> DefaultValue
    ensures { IsTrue (is_default_of Int result) }
{
    match text.parse::<i64>() {
        Ok(number) => DefaultValue::Int(number),
        Err(_) => match text.strip_prefix("NULL::") {
            Some(cast) if is_cast(cast) => DefaultValue::Null,
            _ => DefaultValue::Other,
        },
    }
}

/// The text of a quoted constant, which nothing but a cast follows.
fn unquoted(alloc: Global, expression: &str) -> Result<Option<String>, Fault> {
    let Some(rest) = expression.strip_prefix("'") else {
        return Ok(None);
    };
    let mut text = String::new(alloc);
    let mut rest = rest;
    for _ in 0..expression.len() {
        let Some((front, behind)) = rest.split_once('\'') else {
            return Ok(None);
        };
        text.push_str(front)?;
        match behind.strip_prefix("'") {
            Some(more) => {
                text.push('\'')?;
                rest = more;
            }
            None => {
                rest = behind;
                break;
            }
        }
    }
    Ok(match rest.strip_prefix("::") {
        Some(cast) if is_cast(cast) => Some(text),
        None if rest.is_empty() => Some(text),
        _ => None,
    })
}

/// Whether a text has only what a type's name has.
fn is_cast(text: &str) -> bool {
    text.bytes().all(|byte| {
        byte.is_ascii_alphanumeric()
            || matches!(byte, b' ' | b'_' | b'"' | b'.' | b'(' | b')' | b',')
    })
}
