// An SSD1677 as an interpreter of command and data bytes with the glass it drives (mod.rs): a state goes in by value and comes out by
// value, the buffers are lent. Time is the host's, an instant in cycles of the configuration's time base with every call; the chip never reads a clock. What the
// host must hand over is tested first (SCOPE, Refusals): a refused call hands back the state as given and alters no
// byte of any buffer.
#![tactic(auto)]

pub use command::is_read_command;
pub use driven::read_data;
pub use guard::{Refusal, Refused};
pub use high::write_data;
pub use low::write_command;
pub use power_on::new;
pub use query::{set_ambient, take_diagnostics};
pub use query_busy::{busy_pin, is_busy, next_deadline};
pub use query_state::{config, dropped_diagnostics, panel_image};
pub use reading::Reading;
pub use res::set_reset;
pub use wait::advance;
