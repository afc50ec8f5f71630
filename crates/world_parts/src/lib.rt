#![tactic(auto)]

// The part of a table in a world of open transactions, which is itself a world: that of one table.
//
// Two transactions meet in a table or nowhere: rows, changes and the cells that these hold fall
// apart by table, and nothing of one table says anything of another. So a world is its parts, and
// what else belongs to no table: the order of all commits, and what stopped it. A part has the rows
// of its table, the commits that changed something there, and of each open transaction the changes
// there that survived and the change that it waits with. What comes of a change in its table's part
// comes of it in the world, and the parts of the other tables stay. By this a store can keep its
// tables apart from one another.
//
// No table can be told of a savepoint that is set while another table is worked on. So a change
// goes to its table under the name of the latest mark, and a rollback is one in each part to the
// first of the part's marks that it drops.
//
//   specs/ByTable         rows, changes and cells by their table
//   specs/Parts           the part of a table in a world
//   specs/Marks           savepoints, cut by table
//   specs/Lines           the commits of a table, and the line of a part
//   specs/PartOf          a part that is made of a world
//   specs/Reached         a world whose parts are reached, each by calls of its own
//   specs/Sound           what every world keeps that calls reach, said of any world
//   specs/Led             what is so of the world of a run
//   specs/Statements      the laws as statements, which `laws` promises
//   specs/..Lemmas        the same for the layers above
//
// Its code is what cuts a change to its tables (`cutting`); it stands on `world` for calls and on
// `model` for all else.
pub mod cutting;
pub mod laws;
