//! What names a run in the types of what its threads share.

ghost use Rattle.std.specs.Prelude.{List};
ghost use Rattle.b3_io.specs.Runs.{IoState};
ghost use Rattle.b3_io.specs.Tasks.{Task};
ghost use Rattle.b3_io.specs.declared.output_range.OutputRange.{OutputRange};

use std::marker::Brand;

/// What a run is over: where it began, the range of its digests, and its tasks. The call that begins the run picks
/// them.
pub trait RunInput {
    ghost start: { IoState };

    ghost range: { OutputRange };

    ghost tasks: { List Task };
}

// As these values stand where nothing is picked: the proof of `Engine::run` picks them.
impl RunInput for Brand {
    ghost use Rattle.std.specs.Prelude.{false, None, []};

    ghost start = { record {
      told = None;
      sure = false;
      failures = 0;
      out = record { failures = 0; held = None };
      err = record { failures = 0; held = None };
    } };

    ghost range = { record { mode = record { key = []; flag = 0 }; seek = 0; length = 0 } };

    ghost tasks = { [] };
}
