//! The code of the methods that were asked for last.
ghost use Rattle.std.specs.Prelude.{◌≡◌, [], bytes_eq, None, IfOk};
ghost use Rattle.std.specs.Map.{lookup};
ghost use Rattle.st_machine.specs.Methods.{is_kept, sources, AllAreCode, IsMethodOf, UsedBy};

use crate::shared_code::SharedCode;
use gem_object::Text;
use lru::LruCache;
use st_commands::SOURCE_LIMIT;
use st_compiler::compile;
use st_parser::{ParseFault, parse_method};
use std::alloc::{AllocError, Global};
use std::marker::Model;
use std::num::NonZeroUsize;

/// How many sources are kept.
const SOURCES: usize = 256;

/// The code of the methods that were asked for last. Contracts see their sources, the last one
/// first.
#[derive(Drop)]
pub struct CodeCache {
    entries: LruCache<Text, SharedCode>,
}

impl Model for CodeCache {
    ghost use Rattle.std.specs.Prelude.{List, ◌≡◌};
    ghost use Rattle.gem_object.specs.texts.Bytes.{Bytes};
    ghost use Rattle.st_machine.specs.Methods.{sources, AllAreCode};

    ghost Value = { List Bytes };

    ghost view = { λ cache. sources cache.entries.entries };

    ghost invariant = { λ cache. AllAreCode cache.entries.entries × (cache.entries.cap ≡ 256) };
}

impl CodeCache {
    /// An empty cache.
    pub fn new(alloc: Global) -> Result<CodeCache, AllocError>
        ensures { IfOk result (λ cache. cache ≡ []) }
    {
        let Some(capacity) = NonZeroUsize::new(SOURCES) else {
            unreachable!()
        };
        Ok(CodeCache {
            entries: LruCache::new(alloc, capacity)?,
        })
    }

    /// Whether the code of a source is kept. It takes no memory.
    pub fn holds(&self, source: &Text) -> bool
        ensures { result ≡ is_kept source.now self.now }
    {
        self.entries.contains(source)
    }

    /// The code of a method's source, where the source has a tree. Then it stands first, the others
    /// follow in their order, and the last one is dropped where there would be 257. A source of
    /// 2^32 bytes or more is as if memory had run out; then the cache is as before.
    pub(crate) fn code_of(
        &mut self,
        alloc: Global,
        source: &Text,
    ) -> Result<Option<SharedCode>, AllocError>
        ensures code { IfOk result (IsMethodOf source.now) }
        ensures used { UsedBy source.now result self.old self.new }
    {
        find_code(alloc, &mut self.entries, source)
    }
}

/// The same of what the cache holds.
fn find_code(
    alloc: Global,
    entries: &mut LruCache<Text, SharedCode>,
    source: &Text,
) -> Result<Option<SharedCode>, AllocError>
    requires all { AllAreCode entries.old.entries }
    requires cap { entries.old.cap ≡ 256 }
    ensures code { IfOk result (IsMethodOf source.now) }
    ensures all { AllAreCode entries.new.entries }
    ensures cap { entries.new.cap ≡ 256 }
    ensures used { UsedBy source.now result (sources entries.old.entries)
        (sources entries.new.entries) }
{
    match kept_code(entries, source)? {
        Some(code) => {
            let _ = entries.promote(source);
            Ok(Some(code))
        }
        None => add_code(alloc, entries, source),
    }
}

/// The code of a source, where it is kept.
fn kept_code(
    entries: &LruCache<Text, SharedCode>,
    source: &Text,
) -> Result<Option<SharedCode>, AllocError>
    ensures { IfOk result (λ found. found ≡ lookup (bytes_eq source.now) entries.now.entries) }
{
    match entries.peek(source) {
        Some(code) => Ok(Some(code.share()?)),
        None => Ok(None),
    }
}

/// The code of a source that isn't kept yet.
fn add_code(
    alloc: Global,
    entries: &mut LruCache<Text, SharedCode>,
    source: &Text,
) -> Result<Option<SharedCode>, AllocError>
    requires all { AllAreCode entries.old.entries }
    requires cap { entries.old.cap ≡ 256 }
    requires absent { lookup (bytes_eq source.now) entries.old.entries ≡ None }
    ensures code { IfOk result (IsMethodOf source.now) }
    ensures all { AllAreCode entries.new.entries }
    ensures cap { entries.new.cap ≡ 256 }
    ensures used { UsedBy source.now result (sources entries.old.entries)
        (sources entries.new.entries) }
{
    let Some(code) = compile_method(alloc, source)? else {
        return Ok(None);
    };
    let kept = code.share()?;
    let _ = entries.put(source.clone()?, kept)?;
    Ok(Some(code))
}

/// The code of a method's source, where the source has a tree.
fn compile_method(alloc: Global, source: &Text) -> Result<Option<SharedCode>, AllocError>
    ensures { IfOk result (IsMethodOf source.now) }
{
    let text = source.bytes();
    if text.len() >= SOURCE_LIMIT {
        return Err(AllocError);
    }
    match parse_method(alloc, text) {
        Ok(tree) => Ok(Some(SharedCode::of(alloc, compile(&tree)?)?)),
        Err(ParseFault::Rule { .. }) => Ok(None),
        Err(ParseFault::NoMemory) => Err(AllocError),
    }
}
