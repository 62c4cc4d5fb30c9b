//! A handle that says for which case it was passed on.
use std::fmt::Display;
use std::process::Abort;

/// Ends as the handle in it does, with the prefix before the message of a panic.
#[derive(Drop)]
pub(super) struct Prefixed<'a, R, P> {
    rt: &'a R,
    prefix: P,
}

impl<'a, R, P> Prefixed<'a, R, P> {
    pub(super) fn new(rt: &'a R, prefix: P) -> Prefixed<'a, R, P> {
        Prefixed { rt, prefix }
    }
}

impl<R: Abort, P: Display> Abort for Prefixed<'_, R, P> {
    fn abort(&self) -> ! {
        self.rt.abort()
    }

    fn exit(&self, code: i32) -> ! {
        self.rt.exit(code)
    }

    fn panic<D: Display + Drop>(&self, message: D) -> ! {
        let prefix = &self.prefix;
        self.rt.panic(format_args!("{prefix}: {message}"))
    }
}
