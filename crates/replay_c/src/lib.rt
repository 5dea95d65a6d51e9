// The public calls for a program in C: each answers its six numbers in one word.

#![tactic(auto)]

ghost use Rattle.std.specs.Prelude.{◌≡◌};
ghost use Rattle.paper.specs.Calls.{fresh_answer, fresh_image, report_answer, list_answer, list_buffer, step_answer, step_image, run_answer, run_image, replay_answer};
ghost use Rattle.paper.specs.Batch.{entry_answer};
ghost use Rattle.paper.specs.Lines.{lines_answer, lines_buffer};
ghost use Rattle.replay_c.specs.Word.{Carries};

// The six numbers in one word, each where the C interface has it: `Carries` says this sum, and shifts would be no plainer.
pub fn word(a: paper::Answer) -> u64
    ensures { Carries result a }
{
    72057594037927936 * u64::from(a.refusal)
        + 1099511627776 * u64::from(a.place)
        + 16777216 * u64::from(a.steps)
        + 65536 * u64::from(a.outcome)
        + 256 * u64::from(a.root)
        + u64::from(a.waiting)
}

// Fresh: makes the fresh image.
#[unsafe(no_mangle)]
pub extern "C" fn replay_fresh(upload: &[u8], image: &mut [u8]) -> u64
    ensures carries { Carries result (fresh_answer upload.now image.old) }
    ensures image_after { image.new ≡ fresh_image upload.now image.old }
{
    word(replay::fresh(upload, image))
}

// Report: of a lent image.
#[unsafe(no_mangle)]
pub extern "C" fn replay_report(upload: &[u8], image: &[u8]) -> u64
    ensures { Carries result (report_answer upload.now image.now) }
{
    word(replay::report(upload, image))
}

// List: the possible steps of a lent image, into a lent buffer.
#[unsafe(no_mangle)]
pub extern "C" fn replay_list(upload: &[u8], image: &[u8], out: &mut [u8]) -> u64
    ensures carries { Carries result (list_answer upload.now image.now out.old) }
    ensures out_after { out.new ≡ list_buffer upload.now image.now out.old }
{
    word(replay::list(upload, image, out))
}

// Step: one action on a lent image, as action 0.
#[unsafe(no_mangle)]
pub extern "C" fn replay_step(upload: &[u8], image: &mut [u8], kind: u8, x: u8, y: u8) -> u64
    ensures carries { Carries result (step_answer upload.now image.old kind x y) }
    ensures image_after { image.new ≡ step_image upload.now image.old kind x y }
{
    word(replay::step(upload, image, kind, x, y))
}

// Run: the runner, which leaves the end image.
#[unsafe(no_mangle)]
pub extern "C" fn replay_run(upload: &[u8], image: &mut [u8]) -> u64
    ensures carries { Carries result (run_answer upload.now image.old) }
    ensures image_after { image.new ≡ run_image upload.now image.old }
{
    word(replay::run(upload, image))
}

// Replay: the actions of an upload, from the fresh state.
#[unsafe(no_mangle)]
pub extern "C" fn replay_upload(upload: &[u8]) -> u64
    ensures { Carries result (replay_answer upload.now) }
{
    word(replay::replay(upload))
}

// The answer of one entry of a batch.
#[unsafe(no_mangle)]
pub extern "C" fn replay_entry(batch: &[u8], number: usize) -> u64
    ensures { Carries result (entry_answer batch.now number) }
{
    word(batch::entry(batch, number))
}

// The printed text of a batch, into a lent buffer.
#[unsafe(no_mangle)]
pub extern "C" fn replay_lines(batch: &[u8], out: &mut [u8]) -> u64
    ensures carries { Carries result (lines_answer batch.now out.old) }
    ensures out_after { out.new ≡ lines_buffer batch.now out.old }
{
    word(batch::lines(batch, out))
}
