// What `--verbose` says of a command: why it did not end well, where in the stream, what is undone, and how
// many changes met no row.
use crate::execute::Hearer;
use crate::lsn::write_lsn;
use crate::unmet::count_unmet;
use catalog::{Catalog, CatalogFault, TableDef, TableId};
use leader::{End, Entry, Lsn, Outcome};
use std::alloc::{AllocError, Global};
use trace::Trace;

/// Writes down why a command ended. Where memory is refused, there is less to read.
#[derive(Debug, Drop)]
pub struct Account {
    alloc: Global,
    text: String,
    /// Whether a run has ended. Without one there is no place in the stream to tell.
    has_run: bool,
    /// The commit LSN of the transaction that was to be skipped; 0 for none.
    skip: Lsn,
}

impl Account {
    /// Of a command that was to skip the transaction of this commit LSN; 0 for none.
    pub fn new(alloc: Global, skip: Lsn) -> Account {
        Account {
            alloc,
            text: String::new(alloc),
            has_run: false,
            skip,
        }
    }

    /// Lines for standard error, none where the command ended well and all its changes met their rows.
    pub fn text(&self) -> &str {
        self.text.as_str()
    }

    /// Adds where the run stood when it ended, of a trace that stopped at each frame; nothing where no
    /// run began.
    pub fn add_place(&mut self, trace: &Trace) -> Result<(), AllocError> {
        if !self.has_run {
            return Ok(());
        }
        let counts = trace.counts();
        let place = trace.place();
        let bytes = counts.bytes;
        let frames = counts.frames;
        let offset = place.offset;
        write!(
            self.text,
            "pgapply: {bytes} bytes were read, whole frames {frames}; the last frame begins at byte {offset}"
        )?;
        if let Some(start) = place.start {
            self.text.push_str(", at ")?;
            write_lsn(&mut self.text, start)?;
            self.text.push_str(" of the publisher's log")?;
        }
        self.text.push('\n')?;
        if let Some(message) = place.message {
            write!(self.text, "pgapply: it is {message}")?;
            if let Some(xid) = place.xid {
                write!(self.text, ", of transaction {xid}")?;
            }
            if let Some(sub) = place.sub {
                write!(self.text, ", subtransaction {sub}")?;
            }
            self.add_relation(trace, place.relation)?;
            self.text.push('\n')?;
        }
        Ok(())
    }

    /// Adds how many transactions were open where the run ended, if some were.
    pub fn add_open(&mut self, count: usize) -> Result<(), AllocError> {
        match count {
            0 => Ok(()),
            1 => self
                .text
                .push_str("pgapply: 1 transaction was open, and is undone\n"),
            _ => write!(
                self.text,
                "pgapply: {count} transactions were open, and are undone\n"
            ),
        }
    }

    /// Adds how many changes met no row, if some did.
    fn add_unmet(&mut self, catalog: &Catalog, journal: &[Entry]) -> Result<(), AllocError> {
        let Ok(count) = count_unmet(self.alloc, catalog, journal) else {
            return Ok(());
        };
        if count == 0 {
            return Ok(());
        }
        write!(
            self.text,
            "pgapply: {count} changes met no row: the tables are no true copy of the publisher's: begin again, with publisher's --copy\n"
        )
    }

    fn add_relation(&mut self, trace: &Trace, oid: Option<u32>) -> Result<(), AllocError> {
        let Some(oid) = oid else {
            return Ok(());
        };
        write!(self.text, ", of relation {oid}")?;
        if let Some(relation) = trace.relation() {
            // The publisher's texts are not for a terminal to obey.
            let namespace = relation.namespace.escape_debug();
            let name = relation.name.escape_debug();
            write!(self.text, " ({namespace}.{name})")?;
        }
        Ok(())
    }

    /// Adds which transaction was skipped, or that none was, where one was to be.
    fn add_skip(&mut self, journal: &[Entry]) -> Result<(), AllocError> {
        if self.skip == 0 {
            return Ok(());
        }
        match journal.first() {
            Some(entry) if entry.commit == self.skip => {
                let xid = entry.xid;
                write!(
                    self.text,
                    "pgapply: transaction {xid} was skipped, which committed at "
                )?;
            }
            _ => self.text.push_str(
                "pgapply: no transaction was skipped: none committed first at ",
            )?,
        }
        write_lsn(&mut self.text, self.skip)?;
        self.text.push('\n')
    }

    fn add_end(&mut self, catalog: &Catalog, end: End) -> Result<(), AllocError> {
        match end {
            End::Clean => return Ok(()),
            End::Unique { table, key } => self.add_key(catalog, table, key)?,
            End::NullKey { table } => self.add_key(catalog, table, 0)?,
            _ => {}
        }
        write!(self.text, "pgapply: {end}\n")
    }

    /// Adds a key's table and columns.
    fn add_key(&mut self, catalog: &Catalog, table: TableId, key: usize) -> Result<(), AllocError> {
        let Some(definition) = catalog.tables().get(table) else {
            return Ok(());
        };
        let namespace = definition.namespace().as_str().escape_debug();
        let name = definition.name().as_str().escape_debug();
        write!(
            self.text,
            "pgapply: key {key} of {namespace}.{name} has the columns"
        )?;
        for number in columns_of(definition, key) {
            if let Some(column) = definition.columns().get(*number) {
                let name = column.name.as_str().escape_debug();
                write!(self.text, " {name}")?;
            }
        }
        self.text.push('\n')
    }
}

impl Hearer for Account {
    ghost has_heard_fault = { λ _ _. Unit {0} };

    ghost has_heard_end = { λ _ _ _. Unit {0} };

    // The line of a catalog that was refused for memory says so already.
    fn hear_refusal(&mut self, fault: CatalogFault) {
        if fault != CatalogFault::OutOfMemory {
            let _added = write!(self.text, "pgapply: {fault}\n");
        }
    }

    fn hear_end(&mut self, catalog: &Catalog, outcome: &Outcome) {
        self.has_run = true;
        let _added = self.add_skip(&outcome.journal);
        let _added = self.add_unmet(catalog, &outcome.journal);
        let _added = self.add_end(catalog, outcome.end);
    }
}

/// The columns of a key: 0 is the primary key, 1 upwards the unique keys.
fn columns_of(definition: &TableDef, key: usize) -> &[usize] {
    match key.checked_sub(1) {
        None => definition.primary().numbers(),
        Some(unique) => match definition.uniques().get(unique) {
            Some(columns) => columns.numbers(),
            None => &[],
        },
    }
}
