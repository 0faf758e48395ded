//! A class file, read from its bytes (JVMS 4.1).

ghost use Rattle.std.specs.Prelude.{◌≡◌, ℕ, ◌≤◌, ◌⊎◌, ◌↔◌, ◌∷◌, [], List, length, IsTrue, IfOk};
ghost use Rattle.std.specs.Prelude.{IfErr, OnOk, MatchResult};
ghost use Rattle.je_base.specs.Parts.{Nested};
ghost use Rattle.je_class.specs.declared.fault.ClassFault.{ClassFault};
ghost use Rattle.je_class.specs.declared.member.Attribute.{Attribute};
ghost use Rattle.je_class.specs.declared.member.Member.{Member};
ghost use Rattle.je_class.specs.Class.{Class};
ghost use Rattle.je_class.specs.ClassBytes.{ClassBytes};
ghost use Rattle.je_class.specs.FileParts.{pool_fault, start_parts, own_parts, lists_parts};
ghost use Rattle.je_class.specs.Faults.{FirstFault};
ghost use Rattle.je_class.specs.InMemory.{class_of_parts};
ghost use Rattle.je_class.specs.Reading.{Reads, ReadsClass};

use crate::check::{Sought, index_at};
use crate::class_file::ClassFile;
use crate::fault::{ClassFault, MOST_BYTES};
use crate::laws::one_class_way;
use crate::member::{Attribute, Member};
use crate::members::{Kind, attributes_at, interfaces_at, members_at};
use crate::parts::{MAGIC, NEWEST_MAJOR, OLDEST_MAJOR, Parts};
use je_base::{Run, u16_at, u32_at};
use je_consts::{ConstFault, Consts};
use std::alloc::Global;

/// Whether class files of this major version are read.
fn is_version(major: u16) -> bool
    ensures { IsTrue result ↔ ((OLDEST_MAJOR ≤ major) × (major ≤ NEWEST_MAJOR)) }
{
    (OLDEST_MAJOR..=NEWEST_MAJOR).contains(&major)
}

/// The minor and the major version, behind the magic, and the offset after them.
fn start_at(bytes: &[u8]) -> Result<((u16, u16), usize), ClassFault>
    ensures { Reads (λ x. ((MAGIC, x.0.0, x.0.1), x.1)) bytes.now 0
        (λ (s : ℕ × ℕ × ℕ). start_parts s.0 s.1 s.2) result }
{
    let (magic, at) = u32_at(bytes, 0)?;
    if magic != MAGIC {
        return Err(ClassFault::BadMagic);
    }
    let (minor, at) = u16_at(bytes, at)?;
    let (major, at) = u16_at(bytes, at)?;
    if !is_version(major) {
        return Err(ClassFault::Version(major));
    }
    Ok(((minor, major), at))
}

/// A fault of the constant pool as one of the class file.
fn pool_fault(fault: ConstFault) -> ClassFault
    ensures { result ≡ pool_fault fault }
{
    match fault {
        ConstFault::Truncated(at) => ClassFault::Truncated(at),
        ConstFault::BadConst(index) => ClassFault::BadConst(index),
        ConstFault::Memory => ClassFault::Memory,
    }
}

fn pool_at(
    alloc: Global,
    block: &Run,
    bytes: &[u8],
    at: usize,
) -> Result<(Consts, usize), ClassFault>
    requires within { at ≤ length bytes.now }
    requires same { block.now ≡ bytes.now }
    ensures { Reads (λ x. x) bytes.now at (λ places. Nested places ∷ []) result }
{
    match Consts::read(alloc, block, at) {
        Ok((places, end)) => Ok((places, end)),
        Err(fault) => Err(pool_fault(fault)),
    }
}

/// The access flags, and the indexes of the class and of its super class.
fn own_at(consts: &Consts, bytes: &[u8], at: usize) -> Result<((u16, u16, u16), usize), ClassFault>
    ensures { Reads (λ x. x) bytes.now at
        (λ (o : ℕ × ℕ × ℕ). own_parts consts.now o.0 o.1 o.2) result }
{
    let (access, at) = u16_at(bytes, at)?;
    let (this_class, at) = index_at(consts, Sought::Class, bytes, at)?;
    let (super_class, at) = index_at(consts, Sought::ClassOrNone, bytes, at)?;
    Ok(((access, this_class, super_class), at))
}

/// The tables of a class file.
type Lists = (Vec<u16>, Vec<Member>, Vec<Member>, Vec<Attribute>);

fn lists_at(
    alloc: Global,
    block: &Run,
    consts: &Consts,
    bytes: &[u8],
    at: usize,
) -> Result<(Lists, usize), ClassFault>
    requires same { block.now ≡ bytes.now }
    ensures { Reads (λ x. ((x.0.0.items, x.0.1.items, x.0.2.items, x.0.3.items), x.1)) bytes.now at
        (λ (l : List ℕ × List Member × List Member × List Attribute).
        lists_parts consts.now l.0 l.1 l.2 l.3) result }
{
    let (interfaces, at) = interfaces_at(alloc, consts, bytes, at)?;
    let (fields, at) = members_at(alloc, block, consts, Kind::Fields, bytes, at)?;
    let (methods, at) = members_at(alloc, block, consts, Kind::Methods, bytes, at)?;
    let (attributes, at) = attributes_at(alloc, block, consts, bytes, at)?;
    Ok(((interfaces, fields, methods, attributes), at))
}

/// The class file at the front of the bytes, and the offset at which it ends.
fn parts_at(alloc: Global, block: &Run, bytes: &[u8]) -> Result<(Parts, usize), ClassFault>
    requires same { block.now ≡ bytes.now }
    ensures { ReadsClass (λ x. (class_of_parts x.0, x.1)) bytes.now result }
{
    let ((minor, major), at) = start_at(bytes)?;
    let (consts, at) = pool_at(alloc, block, bytes, at)?;
    let ((access, this_class, super_class), at) = own_at(&consts, bytes, at)?;
    let ((interfaces, fields, methods, attributes), at) = lists_at(
        alloc, block, &consts, bytes, at,
    )?;
    let parts = Parts {
        minor,
        major,
        consts,
        access,
        this_class,
        super_class,
        interfaces,
        fields,
        methods,
        attributes,
    };
    Ok((parts, at))
}

/// The class file at the front of a run, and the offset at which it ends.
fn parts_of(alloc: Global, bytes: &Run) -> Result<(Parts, usize), ClassFault>
    ensures { ReadsClass (λ x. (class_of_parts x.0, x.1)) bytes.now result }
{
    parts_at(alloc, bytes, bytes.as_slice())
}

/// The class file that the bytes spell, all of the bytes (JVMS 4.1).
///
/// Its texts, its attributes and the bytes of its constant pool are parts of the run and are not
/// copied. So the block of the run stays in memory until the last of them is dropped.
///
/// # Errors
///
/// The first test that fails. `TooLong` is tested first and comes where there are more than
/// `MOST_BYTES` bytes. Then the file is read in the order of its bytes: `Truncated` has the offset
/// at which the number or the run of bytes begins that is cut off; `BadMagic` comes once the magic
/// is read; `Version` once the major version is read, where it is outside 49 to 52; `BadConst` as
/// `Consts::read` says. `BadIndex` has the offset of an index that does not name what it has to:
/// that of the class itself, of an interface, or of the super class where it is not 0, a class that
/// is no array; that of a member's name or descriptor, a text. `BadDescriptor` has the offset of an
/// index whose text is no field descriptor, or for a method no method descriptor of at most 255
/// units, with one for `this` unless it is static. `BadAttribute` has the offset of the index of an
/// attribute's name that names no text. `Trailing` has the offset of the first byte behind the
/// class file. `Memory` comes where memory runs out.
pub fn read_class(alloc: Global, bytes: &Run) -> Result<ClassFile, ClassFault>
    // What is read is spelled by the bytes.
    ensures found { IfOk result (ClassBytes bytes.now) }
    ensures within { OnOk result (length bytes.now ≤ MOST_BYTES) }

    // What is spelled so is read, unless memory runs out.
    ensures only { (c : Class) → length bytes.now ≤ MOST_BYTES → ClassBytes bytes.now c →
        MatchResult result (λ d. d ≡ c) (λ e. e ≡ ClassFault.Memory) }

    // Each other fault is the first one, and where there is a first one, no other answer comes.
    ensures fault { IfErr result (λ e. (e ≡ ClassFault.Memory) ⊎ FirstFault bytes.now e) }
    ensures exact { (d : ClassFault) → FirstFault bytes.now d →
        MatchResult result (λ _. ⊥) (λ e. (e ≡ ClassFault.Memory) ⊎ (e ≡ d)) }
{
    // The law that the proof stands on.
    one_class_way();

    if bytes.len() > MOST_BYTES {
        return Err(ClassFault::TooLong);
    }
    let (parts, end) = parts_of(alloc, bytes)?;
    if end < bytes.len() {
        return Err(ClassFault::Trailing(end));
    }
    Ok(ClassFile::of_parts(parts))
}
