// The questions to the server's own tables.
use server::fault::Fault;
use std::alloc::Global;

/// Column lists and row filters of publications, and unique keys with equal nulls, came with 15.
pub const WITH_LISTS: u32 = 150_000;

/// The publication that a literal names: its name, whether a partition's changes are its root's, and whether
/// it has inserts, updates, deletes and truncates.
pub const PUBLICATION: &str =
    "SELECT pubname, pubviaroot, pubinsert, pubupdate, pubdelete, pubtruncate FROM pg_catalog.pg_publication WHERE pubname =";

/// The tables of the publication that this literal names, with a test `{listed}` of a column `a`.
pub fn listed(alloc: Global, publication: &str, version: u32) -> Result<String, Fault> {
    let (filter, names) = if version >= WITH_LISTS {
        ("p.rowfilter", "p.attnames")
    } else {
        ("NULL::text", "NULL::name[]")
    };
    Ok(format!(in alloc;
        "WITH RECURSIVE listed (oid, space, name, identity, filter, names) AS (\
        SELECT c.oid, n.nspname, c.relname, c.relreplident, {filter}, {names} \
        FROM pg_catalog.pg_publication_tables p \
        JOIN pg_catalog.pg_namespace n ON n.nspname = p.schemaname \
        JOIN pg_catalog.pg_class c ON c.relnamespace = n.oid AND c.relname = p.tablename \
        WHERE p.pubname = {publication})"
    )?)
}

/// Of each table: OID, namespace, name, replica identity, and the filter of its rows, if it has one.
pub fn tables(alloc: Global, listed: &str) -> Result<String, Fault> {
    Ok(format!(in alloc;
        "{listed} SELECT oid, space, name, identity, filter FROM listed \
        ORDER BY space COLLATE \"C\", name COLLATE \"C\""
    )?)
}

/// Of each column: table, number, name, type below domains, its kind, its element's OID and kind or 0
/// and an empty text, whether it is generated, whether it is published, its default, its type's name.
pub fn columns(alloc: Global, listed: &str) -> Result<String, Fault> {
    Ok(format!(in alloc;
        "{listed}, base (relid, num, published, typid) AS (\
        SELECT l.oid, a.attnum, l.names IS NULL OR a.attname = ANY (l.names), a.atttypid \
        FROM listed l JOIN pg_catalog.pg_attribute a ON a.attrelid = l.oid \
        WHERE a.attnum > 0 AND NOT a.attisdropped \
        UNION ALL \
        SELECT b.relid, b.num, b.published, t.typbasetype FROM base b \
        JOIN pg_catalog.pg_type t ON t.oid = b.typid WHERE t.typtype = 'd') \
        SELECT b.relid, b.num, a.attname, t.oid, t.typtype, coalesce(e.oid, 0), coalesce(e.typtype, ' '), \
        a.attgenerated <> '', b.published, pg_catalog.pg_get_expr(d.adbin, d.adrelid), \
        pg_catalog.format_type(a.atttypid, a.atttypmod) \
        FROM base b JOIN pg_catalog.pg_attribute a ON a.attrelid = b.relid AND a.attnum = b.num \
        JOIN pg_catalog.pg_type t ON t.oid = b.typid AND t.typtype <> 'd' \
        LEFT JOIN pg_catalog.pg_type e ON e.oid = t.typelem AND t.typcategory = 'A' \
        LEFT JOIN pg_catalog.pg_attrdef d ON d.adrelid = b.relid AND d.adnum = b.num \
        ORDER BY b.relid, b.num"
    )?)
}

/// Of each column of a unique index: table, index, its name, whether it is primary, the replica identity,
/// immediate, partial, over expressions, valid, with equal nulls; the column's number.
pub fn keys(alloc: Global, listed: &str, version: u32) -> Result<String, Fault> {
    let equal_nulls = if version >= WITH_LISTS {
        "i.indnullsnotdistinct"
    } else {
        "false"
    };
    Ok(format!(in alloc;
        "{listed} SELECT i.indrelid, i.indexrelid, x.relname, i.indisprimary, \
        i.indisreplident, i.indimmediate, i.indpred IS NOT NULL, i.indexprs IS NOT NULL, \
        i.indisvalid, {equal_nulls}, k.num \
        FROM listed l JOIN pg_catalog.pg_index i ON i.indrelid = l.oid AND i.indisunique \
        JOIN pg_catalog.pg_class x ON x.oid = i.indexrelid \
        CROSS JOIN LATERAL unnest(i.indkey::int2[]) WITH ORDINALITY AS k (num, place) \
        WHERE k.place <= i.indnkeyatts \
        ORDER BY i.indrelid, i.indisprimary DESC, x.relname COLLATE \"C\", k.place"
    )?)
}
