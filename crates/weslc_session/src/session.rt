//! The session: a workspace that lines of commands edit and ask.

use crate::answer::{
    Answer, DONE, KEPT, OUT_OF_MEMORY, REMOVED, TOO_LONG, command_answer, link_answer,
    refusal_answer, text_answer,
};
use crate::command::Command;
use crate::line::{Line, read_line};
use crate::reading::read_command;
use std::alloc::Global;
use std::io::{BufRead, Write};
use std::{io, mem};
use weslc_workspace::{Compiled, Feature, Linked, Options, Workspace};
use wgsl_base::{Items, Text};
use wgsl_path::{ModulePath, PathOrigin};

/// Answers each line with one, to the end of the input. The first workspace has the root `package` and the options of a bundle that names
/// none.
pub fn serve<R: BufRead, W: Write>(
    alloc: Global,
    reader: &mut R,
    writer: &mut W,
) -> io::Result<()> {
    let root = ModulePath::new(PathOrigin::Absolute, Items::new(alloc));
    let mut workspace = Workspace::new(alloc, root, Options::new(alloc));
    for _turn in 0..u64::MAX {
        let line = read_line(alloc, reader)?;
        if matches!(line, Line::End) {
            break;
        }
        answer_line(alloc, &mut workspace, line, writer)?;
        writer.flush()?;
    }
    Ok(())
}

fn answer_line<W: Write>(
    alloc: Global,
    workspace: &mut Workspace,
    line: Line,
    writer: &mut W,
) -> io::Result<()> {
    match line {
        Line::Bytes(bytes) => answer_bytes(alloc, workspace, bytes.as_slice(), writer),
        Line::TooLong => writer.write_all(TOO_LONG.as_bytes()),
        Line::OutOfMemory => writer.write_all(OUT_OF_MEMORY.as_bytes()),
        Line::End => Ok(()),
    }
}

fn answer_bytes<W: Write>(
    alloc: Global,
    workspace: &mut Workspace,
    bytes: &[u8],
    writer: &mut W,
) -> io::Result<()> {
    match answer_of(alloc, workspace, bytes) {
        Ok(Answer::Ready(line)) => writer.write_all(line.as_bytes()),
        Ok(Answer::Made(line)) => writer.write_all(line.as_str().as_bytes()),
        Err(_) => writer.write_all(OUT_OF_MEMORY.as_bytes()),
    }
}

/// The line that answers a line. It is refused for memory alone.
fn answer_of(alloc: Global, workspace: &mut Workspace, bytes: &[u8]) -> Result<Answer, io::Error> {
    match read_command(alloc, bytes) {
        Ok(command) => obey(alloc, workspace, command),
        Err(error) => Ok(Answer::Made(command_answer(alloc, &error)?)),
    }
}

/// Does what a command asks for. Where memory is refused, no edit was made.
fn obey(alloc: Global, workspace: &mut Workspace, command: Command) -> Result<Answer, io::Error> {
    match command {
        Command::Open(root, options) => Ok(open(alloc, workspace, root, options)),
        Command::SetModule(path, text) => set_module(workspace, path, text),
        Command::RemoveModule(path) => Ok(remove_module(workspace, path)),
        Command::SetFeature(name, feature) => set_feature(workspace, name, feature),
        Command::SetOptions(options) => Ok(set_options(workspace, options)),
        Command::Compile => compiled(alloc, workspace.compile()),
        Command::Link => linked(alloc, workspace.link()),
        Command::Parses => counted(alloc, "parses", workspace.parses()),
        Command::Runs => counted(alloc, "runs", workspace.runs()),
    }
}

/// Begins with an empty workspace.
fn open(alloc: Global, workspace: &mut Workspace, root: ModulePath, options: Options) -> Answer {
    drop(mem::replace(workspace, Workspace::new(alloc, root, options)));
    Answer::Ready(DONE)
}

fn set_module(
    workspace: &mut Workspace,
    path: ModulePath,
    text: Text,
) -> Result<Answer, io::Error> {
    workspace.set_module(&path, text)?;
    Ok(Answer::Ready(DONE))
}

fn remove_module(workspace: &mut Workspace, path: ModulePath) -> Answer {
    let is_removed = workspace.remove_module(&path);
    Answer::Ready(if is_removed { REMOVED } else { KEPT })
}

fn set_feature(
    workspace: &mut Workspace,
    name: Text,
    feature: Feature,
) -> Result<Answer, io::Error> {
    workspace.set_feature(name.as_str(), feature)?;
    Ok(Answer::Ready(DONE))
}

fn set_options(workspace: &mut Workspace, options: Options) -> Answer {
    workspace.set_options(options);
    Answer::Ready(DONE)
}

/// A count, under its name.
fn counted(alloc: Global, name: &str, count: u64) -> Result<Answer, io::Error> {
    let line = format!(in alloc; "{{\"{name}\":{count}}}\n")?;
    Ok(Answer::Made(line))
}

fn compiled(alloc: Global, answer: &Compiled) -> Result<Answer, io::Error> {
    match answer {
        Ok((text, map)) => Ok(Answer::Made(text_answer(alloc, text.as_str(), map)?)),
        Err(refusal) => Ok(Answer::Made(refusal_answer(alloc, refusal)?)),
    }
}

fn linked(alloc: Global, answer: &Linked) -> Result<Answer, io::Error> {
    match answer {
        Ok((text, map)) => Ok(Answer::Made(text_answer(alloc, text.as_str(), map)?)),
        Err(error) => Ok(Answer::Made(link_answer(alloc, error)?)),
    }
}
