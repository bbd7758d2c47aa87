//! What is called for the jobs as they begin and end.

/// Hears of the jobs that workers search, several threads at once. A job is a legal turn of the line, by its number among
/// them, from 0 on. The gate hears of each once or never: `begin` and `end` come from the one worker that drew it, one after the
/// other, and each worker ends a job before it begins the next. It doesn't hear of a job that the caller searches itself.
pub trait Gate: Sync {
    /// A worker begins to search the job.
    fn begin(&self, job: usize);

    /// The search that `begin` announced has ended.
    fn end(&self, job: usize);
}

/// Hears of each job, and does nothing.
#[derive(Clone, Copy, Debug, Default)]
pub struct NoGate;

impl Gate for NoGate {
    fn begin(&self, _job: usize) {}

    fn end(&self, _job: usize) {}
}
