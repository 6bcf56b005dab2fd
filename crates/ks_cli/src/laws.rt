//! Laws of the definitions, each the contract of a function that does nothing.
ghost use Rattle.ks_cli.specs.Laws.{BatchArgs, PreviewArgs};

/// `preview` and two arguments without a hyphen are a preview of these files, as the first one.
pub fn preview_args()
    ensures { PreviewArgs }
{}

/// `batch` and a word without a hyphen are a script.
pub fn batch_args()
    ensures { BatchArgs }
{}
