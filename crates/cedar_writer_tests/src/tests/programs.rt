//! The programs of the README and of docs/LIBRARY.md, as they stand there.
mod counting;
mod linking;
mod linting;
mod listing;
mod making;
mod splitting;
