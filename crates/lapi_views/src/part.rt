/// Lines of a schedule, counted from 0: from one on until before another.
#[derive(Clone, Copy, Debug)]
pub struct Part {
    pub from: u32,
    pub until: u32,
}
