// The names of what belongs to one store.
use std::marker::Brand;

/// The names of what belongs to one store, where no hand holds them all: of the tickets of each
/// table's part, of its line and of its tables' commits, the keys of its tables, and its rows
/// before the first commit.
pub trait StoreNames {
    ghost use Rattle.std.specs.Prelude.{ℕ};
    ghost use Rattle.model.specs.Rows.{Rows, Schema};
    ghost use Rattle.tokens.specs.Half.{Name};

    ghost shares: { ℕ → Name };

    ghost line: { Name };

    ghost tables: { Name };

    ghost schema: { Schema };

    ghost start: { Rows };
}

impl StoreNames for Brand {
    ghost use Rattle.std.specs.Prelude.{[]};
    ghost use Rattle.std.specs.FinMap as finite;
    ghost use Rattle.tokens.specs.Half.{no_name};

    ghost shares = { λ _. no_name };

    ghost line = { no_name };

    ghost tables = { no_name };

    ghost schema = { [] };

    ghost start = { finite.empty };
}
