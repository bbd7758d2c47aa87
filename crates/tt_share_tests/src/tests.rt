//! | Module | What it tests |
//! |---|---|
//! | `common`, `rows` | what the tests share: answers as texts, and how a table is read that is one text |
//! | `alone_tests` | problems solved by the caller alone, over several stores, and which found proofs are used |
//! | `together_tests` | problems solved by workers, and their totals |
//! | `planted_tests` | workers that find proofs which were kept before |
//! | `gate_tests` | when workers search their jobs, and what a run leaves in the log |
//! | `desk_tests` | the desk: jobs, the mark, grants |
//! | `log_tests`, `table_tests` | the log, and the table behind a lock |

mod alone_tests;
mod common;
mod desk_tests;
mod gate_tests;
mod log_tests;
mod planted_tests;
mod rows;
mod table_tests;
mod together_tests;
