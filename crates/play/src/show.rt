use any_rule::AnyRule;
use dispatch::dispatcher::Dispatcher;
use needs::needs::Needs;
use order::by_number::ByNumber;

// A dispatcher at work, and the needs of its jobs.
#[derive(Drop)]
pub(crate) struct Show {
    pub(crate) dispatcher: Dispatcher<'static, AnyRule, ByNumber>,
    pub(crate) needs: Needs,
}
