// The words after the program's name.
use crate::commands::Command;
use accounts::stack::{Beam, Layers};
use anyhow::anyhow;
use std::env::Args;

const USAGE: &str =
    "usage: sheet show FILE [--beam CROWN HEIGHT SLOPE] [--step Q], or sheet pack FILE";

// The next word, which must be there.
fn word(args: &mut Args) -> anyhow::Result<String> {
    args.next().ok_or_else(|| anyhow!(USAGE))
}

// The next word as a number.
fn number(args: &mut Args) -> anyhow::Result<u32> {
    Ok(word(args)?.as_str().parse::<u32>()?)
}

// The crown, the height and the slope of a beam.
fn beam(args: &mut Args) -> anyhow::Result<Beam> {
    let crown = number(args)?;
    let height = word(args)?.as_str().parse::<i32>()?;
    let slope = number(args)?;
    Ok(Beam {
        crown,
        height,
        slope,
    })
}

// The layers over a record: a beam, then a step, each alone or both.
fn read_layers(args: &mut Args) -> anyhow::Result<Layers> {
    let mut layers = Layers {
        beam: None,
        step: None,
    };
    let mut word = args.next();
    if word.as_deref() == Some("--beam") {
        layers.beam = Some(beam(args)?);
        word = args.next();
    }
    if word.as_deref() == Some("--step") {
        layers.step = Some(number(args)?);
        word = args.next();
    }
    match word {
        Some(_) => Err(anyhow!(USAGE)),
        None => Ok(layers),
    }
}

// The command that the words say; the first is the program's name.
pub fn read_command(mut args: Args) -> anyhow::Result<Command> {
    let _ = args.next();
    let verb = word(&mut args)?;
    let path = word(&mut args)?;
    let layers = read_layers(&mut args)?;
    match (verb.as_str(), layers) {
        ("show", layers) => Ok(Command::Show { path, layers }),
        (
            "pack",
            Layers {
                beam: None,
                step: None,
            },
        ) => Ok(Command::Pack { path }),
        _ => Err(anyhow!(USAGE)),
    }
}
