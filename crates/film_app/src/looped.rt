//! The picture that loops, of a configuration's run.

ghost use Rattle.std.specs.Prelude.{IfOk, string_bytes};
ghost use Rattle.cell_rules.specs.Start.{IsStartState};
ghost use Rattle.cell_config.specs.Configured.{AreAxisScales, AreCurvesOf};
ghost use Rattle.film_app.specs.Loops.{IsPictureFrom};

use crate::configured::show_configured;
use cell_config::Config;
use cell_picture::{LoopFrames, loop_picture};
use cell_plant::SeenFault;
use std::alloc::{AllocError, Global};

/// The picture that loops, of the run of a configuration's schedule, or of its first 100,000 turns if
/// there are more. An error says that memory ran out.
pub fn loop_configured(alloc: Global, config: &Config) -> Result<String, AllocError>
    requires start { IsStartState config.now.start }
    requires points { AreAxisScales config.now.points }
    requires curves { AreCurvesOf config.now.points config.now.curves }
    ensures { IfOk result (λ text. IsPictureFrom config.now (string_bytes text)) }
{
    let mut frames = LoopFrames::new(alloc);
    match show_configured(alloc, config, &mut frames) {
        Ok(_) => loop_picture(alloc, frames.as_slice()),
        Err(SeenFault::Memory) => Err(AllocError),
        Err(SeenFault::Observer(error)) => Err(error),
    }
}
