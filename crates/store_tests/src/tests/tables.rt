// The files, and what each tests or gives the others.
//
//   calls        what the others write: tables, rows and changes in plain words
//   changes      `change`
//   holds        `keyholds`
//   row_forms    `rows`, both forms of a store, undone to marks
//   shown        what tables show: rows, and what look-ups find
//   stores       `engine`
//   undo_logs    `undo`
mod calls;
mod changes;
mod holds;
mod row_forms;
mod shown;
mod stores;
mod undo_logs;
