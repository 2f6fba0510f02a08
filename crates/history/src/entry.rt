/// What happened: something was published, or the history was closed. No value of it is ever made.
pub enum Event<E> {
    Publish(E),
    Finish,
}

/// What happened, and the number of the cell whose pen may write what comes next. No value of it is
/// ever made.
pub struct Entry<E> {
    pub event: Event<E>,
    pub key: u64,
}
