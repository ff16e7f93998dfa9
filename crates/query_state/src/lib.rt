// What a state holds of its parameters, its image and its log (mod.rs, `config`, `panel_image`, `dropped_diagnostics`). Each call refuses
// a state with 13.
#![tactic(auto)]

ghost use Rattle.std.specs.Prelude.{◌≡◌};
ghost use Rattle.query.specs.Outcome.{told, told_part};
ghost use Rattle.query.specs.Queries.{config_asked, image_asked, dropped_asked};

use config::Ssd1677Config;
use device::Ssd1677;
use glass::PanelImage;
use guard::{Refusal, Refused};
use query::{check_given, check_state};

// The parameters that the chip was built with. A refused state, which has some too, is handed back.
pub fn config(state: Ssd1677) -> Result<Ssd1677Config, Refused>
    ensures { told_part (λ d. d.config) result ≡ config_asked state }
{
    check_given(state).and(Ok(state.config))
}

// The header of the image that the glass shows since the last refresh (generation 0 before any); its pixels are the lent buffer. A refused
// state, which has one too, is handed back.
pub fn panel_image(state: Ssd1677) -> Result<PanelImage, Refused>
    ensures { told_part (λ d. d.panel.image) result ≡ image_asked state }
{
    check_given(state).and(Ok(state.panel.image))
}

// How many diagnostics were dropped because the log was full.
pub fn dropped_diagnostics(state: Ssd1677) -> Result<u64, Refusal>
    ensures { told 0 result ≡ dropped_asked state }
{
    check_state(state).and(Ok(state.journal.dropped))
}
