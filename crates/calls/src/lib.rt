// The calls: open, grant, release, resize, emptying, joining, audit, on arena bytes, control record bytes and a number. Each is the machine's call on the
// same bytes, refusals included, on any input: none has a `requires`. Assumes nothing.
#![tactic(auto)]

mod shape; // shape.rt: the allowed lengths
mod call_open; // call_open.rt
mod call_grant; // call_grant.rt
mod call_release; // call_release.rt
mod call_resize; // call_resize.rt
mod call_emptying; // call_emptying.rt
mod call_joining; // call_joining.rt
mod call_audit; // call_audit.rt

pub use call_audit::audit;
pub use call_emptying::emptying;
pub use call_grant::grant;
pub use call_joining::joining;
pub use call_open::open;
pub use call_release::release;
pub use call_resize::resize;
pub use shape::{allowed, shaped};
