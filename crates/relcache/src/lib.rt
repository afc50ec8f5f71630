#![tactic(auto)]

// The relation cache: from what the publisher says of its relations to changes of the subscriber's
// tables.
//
// A publisher announces a relation before it sends rows of it: the names of the table and of its
// columns, which columns are of the key, and an OID that the row messages name. `RelCache` learns
// what was last said of each OID. `RelCache::resolve` maps a relation to the subscriber's table of
// the same namespace and name, its columns by name in any order, and `plan` makes the change of a
// row message by that mapping. (PostgreSQL manual: Logical Replication Message Formats; Logical
// Replication, Subscription.)
//
// What is promised: `learn` puts a relation in the place of the one that its OID named before.
// `resolve` and `plan` answer exactly what the definitions in `specs` say, with the first fault that
// applies; OutOfMemory alone may stand in place of any answer. A mapping is of a table of the
// catalog, and a planned change is of the mapping's table and speaks of each of its columns, so no
// layer above tests them again. A refusal changes nothing.
//
//   specs/Published   what of a relation counts, and the relations that were learnt
//   specs/Mapping     the table of a relation, where each column's value comes from, and the faults
//   specs/Planning    rows, patches and keys from tuples, the change of a row message, and the faults
//   specs/Fits        a mapping fits its catalog, a change its mapping
//   specs/Statements        the rules as sentences, by names and places, which `laws` proves of the others
//
// Names are looked up once for a relation: a `Mapping` has, for each column of the table, the place
// of its value in the tuple and its type, or its default. So planning a row looks up no name, makes
// one list for a row and one for a key, and shares the bytes of texts with the payload that they came
// in.
//
// It stands on `messages` for relations and tuples, `catalog` and `model` for tables, values and
// changes, and `indexmap` for the cache.
mod cache;
mod fault;
pub mod laws;
mod mapping;
mod planning;
mod published;
mod resolve;
mod tuples;
mod values;

pub use cache::RelCache;
pub use fault::RelFault;
pub use mapping::Mapping;
pub use planning::plan;
