// The files, and what each tests or gives the others.
//
//   mailboxes   `worker_threads`
//   halves      `tokens`
//   positions   `origin`
//   readers     `snapshot`
//   rings       `ring`
//   table       the table of the stores, and its rows
//   workers     `worker`
mod halves;
mod mailboxes;
mod positions;
mod readers;
mod rings;
mod table;
mod workers;
