// One call of a trace, as it was asked and answered.
use trace_words::calls::Call;
use trace_words::reply::Reply;

// None: its number is no call's. The words of the request, and those of the answer.
#[derive(Clone, Copy)]
pub struct Record<'a> {
    pub call: Option<Call>,
    pub asked: &'a [u32],
    pub reply: Reply,
    pub answer: &'a [u32],
}
