//! Files as inputs of the tools.

ghost use Rattle.std.specs.Prelude.{◌≡◌, ◌*◌, ◌+◌, ◌<◌, ◌≤◌, IfOk, length};

use crate::digests::tell_changed;
use cord_tools::{ToolFault, read_source};
use cord_words::Lengths;
use image_files::{open, told_size};
use lazy_file::{FileDevice, FileSources};
use source_device::SourceDevice;
use std::alloc::{AllocError, Global};
use std::fs::{self, File};
use std::io::{self, ErrorKind};
use std::num::NonZeroUsize;
use std::path::Path;
use std::sync::ledger::{Blank, Ledger, Share};

/// So many blocks of the files are kept in memory.
const BLOCKS: usize = 256;

/// The sources of every tool: files that are read where they lie, and what was read of others.
pub type OpenedSources<L> = FileSources<SourceDevice<FileDevice<L>>>;

/// An image that is to be checked with its sources, by so many looks at most.
#[derive(Drop)]
pub struct OpenedImage<L: Ledger> {
    pub file: File,
    /// So many bytes it tells that it has.
    pub expected: u64,
    pub at_most: Option<u64>,
    pub sources: OpenedSources<L>,
}

/// A file that tells its size is read where it lies, and its reads are
/// counted by two parts of these. Another one is read now, to its end.
fn opened_device<L: Ledger>(
    rt: &HostRuntime,
    path: &str,
    parts: &mut Share<L>,
) -> Result<SourceDevice<FileDevice<L>>, ToolFault>
    requires some { 2 < parts.old.parts }
    requires unused { parts.old.amount ≡ 0 }
    ensures parts { parts.old.parts ≤ parts.new.parts + 2 }
    ensures unused { parts.new.amount ≡ 0 }
{
    let file = open(rt, path)?;
    let size = told_size(&file);
    if size == 0 {
        return Ok(SourceDevice::Held(read_source(rt.alloc(), file)?));
    }
    let failed = parts.split_off(1, 0);
    let called = parts.split_off(1, 0);
    let device = FileDevice::new(file, size, failed, called);
    Ok(SourceDevice::File(device))
}

/// What has no byte: a source of which the length alone is known is read from here, and so each read of it fails.
const NOTHING: &str = "/dev/null";

/// A source as words name it.
#[derive(Clone, Copy)]
pub enum Named<'a> {
    File(&'a str),
    /// So many bytes, whose file is not given.
    Length(u64),
}

/// A source of this length, none of whose bytes can be read.
fn length_device<L: Ledger>(
    rt: &HostRuntime,
    length: u64,
    parts: &mut Share<L>,
) -> Result<SourceDevice<FileDevice<L>>, ToolFault>
    requires some { 2 < parts.old.parts }
    requires unused { parts.old.amount ≡ 0 }
    ensures parts { parts.old.parts ≤ parts.new.parts + 2 }
    ensures unused { parts.new.amount ≡ 0 }
{
    let file = open(rt, NOTHING)?;
    let failed = parts.split_off(1, 0);
    let called = parts.split_off(1, 0);
    let device = FileDevice::new(file, length, failed, called);
    Ok(SourceDevice::File(device))
}

/// A source that words name.
fn named_device<L: Ledger>(
    rt: &HostRuntime,
    name: Named<'_>,
    parts: &mut Share<L>,
) -> Result<SourceDevice<FileDevice<L>>, ToolFault>
    requires some { 2 < parts.old.parts }
    requires unused { parts.old.amount ≡ 0 }
    ensures parts { parts.old.parts ≤ parts.new.parts + 2 }
    ensures unused { parts.new.amount ≡ 0 }
{
    match name {
        Named::File(path) => opened_device(rt, path, parts),
        Named::Length(length) => length_device(rt, length, parts),
    }
}

/// Adds the lengths before which so many files stand.
fn push_lengths(
    names: &mut Vec<Named<'_>>,
    lengths: &Lengths,
    files: usize,
) -> Result<(), AllocError> {
    for (number, before) in lengths.numbers.iter().zip(lengths.files_before.iter()) {
        if *before == files {
            names.push(Named::Length(*number))?;
        }
    }
    Ok(())
}

/// The sources in the order of the words: files, and lengths among them.
pub fn names_of<'a>(
    alloc: Global,
    lengths: &Lengths,
    paths: &[&'a str],
) -> Result<Vec<Named<'a>>, AllocError> {
    let mut names = Vec::new(alloc);
    for (files, path) in paths.iter().enumerate() {
        push_lengths(&mut names, lengths, files)?;
        names.push(Named::File(path))?;
    }
    push_lengths(&mut names, lengths, paths.len())?;
    Ok(names)
}

/// The sources that words name, in their order. The first that cannot be opened or added is the fault.
fn named_sources<L: Ledger>(
    rt: &HostRuntime,
    names: &[Named<'_>],
    blank: Blank,
) -> Result<OpenedSources<L>, ToolFault>
    requires name { blank.name ≡ L.name }
    requires parts { blank.parts ≡ L.parts }
    requires many { 2 * length names.now < blank.parts }
{
    let blocks = NonZeroUsize::new(BLOCKS).unwrap_or(NonZeroUsize::MIN);
    let (book, all) = blank.open::<L>();
    let mut parts = all;
    let mut sources = FileSources::new(rt.alloc(), blocks, book)?;
    for name in names {
        let device = named_device(rt, *name, &mut parts)?;
        sources.add(device).map_err(|refused| refused.fault)?;
    }
    Ok(sources)
}

/// The files as sources, in the order of their paths. The first that cannot be opened or added is the fault.
pub fn opened_sources<L: Ledger>(
    rt: &HostRuntime,
    paths: &[&str],
    blank: Blank,
) -> Result<OpenedSources<L>, ToolFault>
    requires name { blank.name ≡ L.name }
    requires parts { blank.parts ≡ L.parts }
    requires many { 2 * length paths.now < blank.parts }
    ensures { IfOk result (λ sources. length sources.devices ≡ length paths.entry.now) }
{
    let blocks = NonZeroUsize::new(BLOCKS).unwrap_or(NonZeroUsize::MIN);
    let (book, all) = blank.open::<L>();
    let mut parts = all;
    let mut sources = FileSources::new(rt.alloc(), blocks, book)?;
    for path in paths {
        let device = opened_device(rt, path, &mut parts)?;
        sources.add(device).map_err(|refused| refused.fault)?;
    }
    Ok(sources)
}

/// An image and its sources, of some of which the length alone is given. They are opened in their order.
pub fn opened_image_of<L: Ledger>(
    rt: &HostRuntime,
    at_most: Option<u64>,
    image: &str,
    names: &[Named<'_>],
    blank: Blank,
) -> Result<OpenedImage<L>, ToolFault>
    requires name { blank.name ≡ L.name }
    requires parts { blank.parts ≡ L.parts }
    requires many { 2 * length names.now < blank.parts }
{
    let file = open(rt, image)?;
    let expected = told_size(&file);
    let sources = named_sources::<L>(rt, names, blank)?;
    Ok(OpenedImage {
        file,
        expected,
        at_most,
        sources,
    })
}

/// An image and its sources, which are opened in their order.
pub fn opened_image<L: Ledger>(
    rt: &HostRuntime,
    at_most: Option<u64>,
    image: &str,
    paths: &[&str],
    blank: Blank,
) -> Result<OpenedImage<L>, ToolFault>
    requires name { blank.name ≡ L.name }
    requires parts { blank.parts ≡ L.parts }
    requires many { 2 * length paths.now < blank.parts }
{
    let file = open(rt, image)?;
    let expected = told_size(&file);
    let sources = opened_sources::<L>(rt, paths, blank)?;
    Ok(OpenedImage {
        file,
        expected,
        at_most,
        sources,
    })
}

/// An image and its sources, of which it is told whether they are those that its session was made from.
pub fn opened_with_sources<L: Ledger>(
    rt: &HostRuntime,
    at_most: Option<u64>,
    image: &str,
    paths: &[&str],
    blank: Blank,
) -> Result<OpenedImage<L>, ToolFault>
    requires name { blank.name ≡ L.name }
    requires parts { blank.parts ≡ L.parts }
    requires many { 2 * length paths.now < blank.parts }
{
    let opened = opened_image::<L>(rt, at_most, image, paths, blank)?;
    // Where there is no memory for it, nothing is told.
    let _ = tell_changed(rt, image, paths);
    Ok(opened)
}
