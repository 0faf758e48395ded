use je_base::{MemFiles, Run, Text};
use je_class::{ClassFile, read_class};
use je_pool::{AddStop, ClassId, Loader, Pool, PoolFault};
use samples::{CLASS_A, CLASS_B};
use std::test::Fail;

/// A name.
fn name_of(rt: &HostRuntime, bytes: &[u8]) -> Result<Text, Fail> {
    Ok(Text::from_bytes(rt.alloc(), bytes)?.ok_or("a text")?)
}

/// The class file of these bytes.
fn class_of(rt: &HostRuntime, bytes: &[u8]) -> Result<ClassFile, Fail> {
    let run = Run::of_vec(rt.alloc(), Vec::from_slice(rt.alloc(), bytes)?)?;
    match read_class(rt.alloc(), &run) {
        Ok(class) => Ok(class),
        Err(_) => Err("a class".into()),
    }
}

/// A pool over three folders.
fn pool_of(rt: &HostRuntime) -> Result<Pool, Fail> {
    let mut roots = Vec::new(rt.alloc());
    for root in ["a", "b", "c"] {
        roots.push(String::from_str(rt.alloc(), root)?)?;
    }
    Ok(Pool::new(rt.alloc(), roots))
}

/// A broken file in the first folder, one of another class in the second, and two that are good.
fn files_of(rt: &HostRuntime) -> Result<MemFiles, Fail> {
    let mut files = MemFiles::new(rt.alloc());
    files.add("a/A.class", &CLASS_A[..3])?;
    files.add("b/A.class", CLASS_A.as_slice())?;
    files.add("b/C.class", CLASS_A.as_slice())?;
    files.add("c/C.class", CLASS_A.as_slice())?;
    files.add("c/B.class", CLASS_B.as_slice())?;
    Ok(files)
}

/// What an answer is.
fn kind_of(found: &Result<Option<ClassId>, PoolFault>) -> &'static str {
    match found {
        Ok(None) => "none",
        Ok(Some(_)) => "class",
        Err(PoolFault::BadClass(_, _)) => "bad class",
        Err(PoolFault::WrongName(_, _)) => "wrong name",
        Err(PoolFault::Failed) => "failed",
        Err(PoolFault::Memory) => "memory",
    }
}

/// Finds names in order, in a new pool, and answers the path of a read that failed.
fn finds(
    rt: &HostRuntime,
    files: &mut MemFiles,
    table: &[(&[u8], &str)],
) -> Result<Option<String>, Fail> {
    let mut pool = pool_of(rt)?;
    let mut loader = Loader::new(rt.alloc(), &mut pool, files);
    for (bytes, want) in table {
        let name = name_of(rt, bytes)?;
        if kind_of(&loader.find(&name)) != *want {
            return Err("another answer was wanted".into());
        }
    }
    match loader.failed_path() {
        Some(path) => Ok(Some(String::from_str(rt.alloc(), path)?)),
        None => Ok(None),
    }
}

#[test]
fn the_first_folder_that_has_the_file_counts(rt: HostRuntime) -> Result<(), Fail> {
    let mut files = files_of(&rt)?;
    let table: [(&[u8], &str); 8] = [
        (b"A", "bad class"),
        (b"B", "class"),
        (b"C", "wrong name"),
        (b"D", "none"),
        (b"x//D", "none"),
        (b"../a/A", "none"),
        (b".", "none"),
        (b"B", "class"),
    ];
    if finds(&rt, &mut files, &table)?.is_some() {
        return Err("no read fails".into());
    }
    let wanted = [
        "a/A.class",
        "a/B.class",
        "b/B.class",
        "c/B.class",
        "a/C.class",
        "b/C.class",
        "a/D.class",
        "b/D.class",
        "c/D.class",
    ];
    if files.asked().len() != wanted.len() {
        return Err("other paths were wanted".into());
    }
    for (path, want) in files.asked().iter().zip(wanted.iter()) {
        if path.as_str() != *want {
            return Err("another path was wanted".into());
        }
    }
    Ok(())
}

#[test]
fn after_a_failure_nothing_is_asked(rt: HostRuntime) -> Result<(), Fail> {
    let mut files = files_of(&rt)?;
    files.fail_at(2)?;
    let table: [(&[u8], &str); 3] = [(b"B", "failed"), (b"B", "memory"), (b"C", "memory")];
    match finds(&rt, &mut files, &table)? {
        Some(path) if path.as_str() == "b/B.class" => {}
        _ => return Err("the path of the failure was wanted".into()),
    }
    if files.reads() != 2 {
        return Err("two reads were wanted".into());
    }
    Ok(())
}

#[test]
fn a_class_is_added_once(rt: HostRuntime) -> Result<(), Fail> {
    let mut pool = pool_of(&rt)?;
    let class = class_of(&rt, CLASS_A.as_slice())?;
    let Ok(id) = pool.add(class) else {
        return Err("a place".into());
    };
    match pool.class(id) {
        Ok(class) if class.this_name().bytes() == b"A".as_slice() => {}
        _ => return Err("the class was wanted".into()),
    }
    match pool.add(class_of(&rt, CLASS_A.as_slice())?) {
        Err(AddStop::Taken) => Ok(()),
        _ => Err("the name is taken".into()),
    }
}
