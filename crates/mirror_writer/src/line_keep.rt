// Commits are kept as lines of JSON.
ghost use Rattle.std.specs.Prelude.{◌≡◌, map};
ghost use Rattle.model.specs.Rows.{keys_of};

use crate::keep::Keep;
use crate::stop::Stop;
use catalog::Catalog;
use indexes::Tables;
use mirror_json::JsonLines;
use mirror_statements::Commit;
use model::Lsn;
use std::alloc::Global;
use std::io::Write;

/// Keeps commits as lines of JSON, which are written out before they count as kept.
#[derive(Drop)]
pub struct LineKeep<'a, W: Write + Drop> {
    lines: JsonLines,
    catalog: &'a Catalog,
    out: W,
    /// The lines of the commits that are kept just now.
    text: Vec<u8>,
    ghost of_catalog: { lines.schema ≡ map keys_of catalog.now },
}

impl<'a, W: Write + Drop> LineKeep<'a, W> {
    /// Over tables of the catalog as they are before the first commit, to where lines are written.
    pub fn new(alloc: Global, tables: Tables, catalog: &'a Catalog, out: W) -> LineKeep<'a, W>
        requires { tables.schema ≡ map keys_of catalog.now }
        ensures { result.lines ≡ tables }
    {
        LineKeep {
            lines: JsonLines::new(alloc, tables),
            catalog,
            out,
            text: Vec::new(alloc),
        }
    }
}

impl<W: Write + Drop> Keep for LineKeep<'_, W> {
    ghost use Rattle.mirror_writer.specs.Kept.{HasMade};

    ghost has_kept = { λ k commits. HasMade commits k.lines };

    fn begin(&mut self) {}

    fn keep(&mut self, commits: &[Commit], _end: Lsn) -> Result<(), Stop> {
        self.text.clear();
        self.lines
            .push_commits(self.catalog, commits, &mut self.text)?;
        self.out.write_all(self.text.as_slice())?;
        self.out.flush()?;
        Ok(())
    }
}
