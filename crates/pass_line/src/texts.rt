//! The texts of a module behind its passes.
ghost use Rattle.std.specs.Prelude.{◌≡◌, ◌++◌, OnOk, string_bytes};
ghost use Rattle.pass_line.specs.Texts.{all_texts, headed};

use std::alloc::AllocError;

/// A module behind each pass: without parallel loops, in blocks, with its counts, and as the optimiser leaves it.
#[derive(Drop)]
pub struct Texts {
    pub split: String,
    pub runtime: String,
    pub counted: String,
    pub optimised: String,
}

fn push_headed(to: &mut Vec<u8>, name: &str, text: &String) -> Result<(), AllocError>
    ensures { OnOk result (to.new.items ≡ to.old.items ++ headed name.now (string_bytes text.now)) }
{
    to.extend_from_slice(b"// ")?;
    to.extend_from_slice(name.as_bytes())?;
    to.extend_from_slice(b"\n")?;
    to.extend_from_slice(text.as_bytes())?;
    Ok(())
}

/// Adds the four texts at the end of a text, each behind a line that names its pass.
pub fn push_texts(to: &mut Vec<u8>, texts: &Texts) -> Result<(), AllocError>
    ensures { OnOk result (to.new.items ≡ to.old.items ++ all_texts texts.now) }
{
    push_headed(to, "async-parallel-for", &texts.split)?;
    push_headed(to, "async-to-async-runtime", &texts.runtime)?;
    push_headed(to, "async-runtime-ref-counting", &texts.counted)?;
    push_headed(to, "async-runtime-ref-counting-opt", &texts.optimised)?;
    Ok(())
}
