//! Lists of texts and of files as bytes: each part behind its length, which takes eight bytes with the lowest first.

ghost use Rattle.std.specs.Prelude.{◌≡◌, ◌<◌, IfOk, IfSome, IfNone, List, ℕ, length, map, string_bytes};
ghost use Rattle.sn_edge.specs.MemFolder.{entry_of};
ghost use Rattle.caller_edge.specs.Lists.{HasFiles, HasTexts, IsNext, IsNextFile, IsNextText};

use std::alloc::{AllocError, Global};

/// A file in memory: its name and its bytes.
pub type NamedFile = (String, Vec<u8>);

/// The first part, and what is behind it; None where the bytes begin with none.
fn next_part(bytes: &[u8]) -> Option<(&[u8], &[u8])>
    ensures some { IfSome result (λ next. IsNext bytes.now next.0.now next.1.now) }
    ensures shorter { IfSome result (λ next. length next.1.now < length bytes.now) }
    ensures none { IfNone result ((part rest : List ℕ) → IsNext bytes.now part rest → ⊥) }
{
    let (head, left) = bytes.split_first_chunk::<8>()?;
    left.split_at_checked(usize::from_le_bytes(*head))
}

/// The first part, where it is a text, and what is behind it.
fn next_text(bytes: &[u8]) -> Option<(&str, &[u8])>
    ensures some { IfSome result (λ next. IsNextText bytes.now next.0.now next.1.now) }
    ensures shorter { IfSome result (λ next. length next.1.now < length bytes.now) }
    ensures none { IfNone result ((text rest : List ℕ) → IsNextText bytes.now text rest → ⊥) }
{
    let (part, left) = next_part(bytes)?;
    match str::from_utf8(part) {
        Ok(text) => Some((text, left)),
        Err(_) => None,
    }
}

/// The first file: its name, its bytes, and what is behind them.
fn next_file(bytes: &[u8]) -> Option<(&str, &[u8], &[u8])>
    ensures some { IfSome result (λ next. IsNextFile bytes.now (next.0.now, next.1.now) next.2.now) }
    ensures shorter { IfSome result (λ next. length next.2.now < length bytes.now) }
    ensures none { IfNone result ((file : List ℕ × List ℕ) (rest : List ℕ) → IsNextFile bytes.now file rest → ⊥) }
{
    let (name, behind) = next_text(bytes)?;
    let (file, left) = next_part(behind)?;
    Some((name, file, left))
}

/// The list of texts that the bytes are; None where they are none.
pub fn read_texts(alloc: Global, bytes: &[u8]) -> Result<Option<Vec<String>>, AllocError>
    ensures some { IfOk result (λ r. IfSome r (λ texts. HasTexts bytes.now (map string_bytes texts.items))) }
    ensures none { IfOk result (λ r. IfNone r ((texts : List (List ℕ)) → HasTexts bytes.now texts → ⊥)) }
{
    let mut texts = Vec::new(alloc);
    let mut left = bytes;
    while let Some((text, rest)) = next_text(left) {
        texts.push(String::from_str(alloc, text)?)?;
        left = rest;
    }
    if !left.is_empty() {
        return Ok(None);
    }
    Ok(Some(texts))
}

/// The list of files that the bytes are: of each its name, which is a text, and then its bytes. None where they are none.
pub fn read_files(alloc: Global, bytes: &[u8]) -> Result<Option<Vec<NamedFile>>, AllocError>
    ensures some { IfOk result (λ r. IfSome r (λ files. HasFiles bytes.now (map entry_of files.items))) }
    ensures none { IfOk result (λ r. IfNone r ((files : List (List ℕ × List ℕ)) → HasFiles bytes.now files → ⊥)) }
{
    let mut files = Vec::new(alloc);
    let mut left = bytes;
    while let Some((name, file, rest)) = next_file(left) {
        files.push(named_file(alloc, name, file)?)?;
        left = rest;
    }
    if !left.is_empty() {
        return Ok(None);
    }
    Ok(Some(files))
}

/// A copy of a file under its name.
fn named_file(alloc: Global, name: &str, file: &[u8]) -> Result<NamedFile, AllocError>
    ensures { IfOk result (λ made. entry_of made ≡ (name.now, file.now)) }
{
    let name = String::from_str(alloc, name)?;
    let file = file.to_vec(alloc)?;
    Ok((name, file))
}
