/// The parts of a batch, in order. Each goes over the links of all tasks.
#[derive(Clone, Copy, Debug)]
pub enum Part {
    /// The task makes its call.
    Steps,
    /// It sends its request.
    Polls,
    /// The switch hands it over, from the link's turn on, but for a packet that it loses.
    Requests,
    /// What acknowledges it is handed over.
    Acknowledgements,
    /// What was lost is sent again, handed over and acknowledged.
    Again,
    /// The completion handler of an active message runs.
    Jobs,
    /// The target sends its answer.
    Answers,
    /// The answer is handed over, and what acknowledges it.
    Returns,
}
