//! Files of the machine.
ghost use Rattle.std.specs.Prelude.{◌≤◌};

use std::alloc::{AllocError, Global};
use std::fs::{File, Permissions};
use std::os::unix::fs::{MetadataExt, PermissionsExt, symlink};
use std::path::Path;
use std::test::Fail;
use std::{env, fs, process};
use tb_base::HashKey;
use tb_io::{HostFolder, InSource, Taken, take_file, take_source};

// A path in a folder, which no other test has.
fn path_in(rt: &HostRuntime, folder: Path<'_>, name: &str) -> Result<String, Fail> {
    let folder = folder.to_str().ok_or("no text")?;
    Ok(format!(in rt.alloc(); "{folder}/router_{name}_{}", process::id(rt.process()))?)
}

// The same in the machine's folder for files that don't stay.
fn own_path(rt: &HostRuntime, name: &str) -> Result<String, Fail> {
    let folder = env::temp_dir(rt)?;
    let path = path_in(rt, folder.as_path(), name);
    drop(folder);
    path
}

// So many bytes, of which no piece of 64 KiB is like the next.
fn varied(alloc: Global, count: u32) -> Result<Vec<u8>, AllocError> {
    let mut bytes = Vec::new(alloc);
    for i in 0..count {
        let byte = i % 251;
        bytes.push(byte as u8)?;
    }
    Ok(bytes)
}

// A whole file of the machine.
fn taken(rt: &HostRuntime, path: &str, most: u64) -> Result<Option<Vec<u8>>, Taken>
    requires { most ≤ 200_000 }
{
    let mut folder = HostFolder::new(rt, HashKey::known());
    take_file(rt.alloc(), &mut folder, path, most)
}

#[test]
fn long_file_is_taken_whole(rt: HostRuntime) -> Result<(), Fail> {
    let path = own_path(&rt, "long")?;
    let bytes = varied(rt.alloc(), 200_000)?;
    fs::write(&rt, path.as_str(), bytes.as_slice())?;
    let whole = taken(&rt, path.as_str(), 200_000);
    let too_much = taken(&rt, path.as_str(), 199_999);
    let mut source = InSource::new(File::open(&rt, path.as_str())?);
    let read = take_source(rt.alloc(), &mut source, 200_000);
    fs::remove_file(&rt, path.as_str())?;
    assert!(rt; whole?.ok_or("not there")? == bytes);
    assert!(rt; too_much.err() == Some(Taken::TooLarge));
    assert!(rt; read? == bytes);
    Ok(())
}

#[test]
fn absent_file_is_not_there(rt: HostRuntime) -> Result<(), Fail> {
    let path = own_path(&rt, "absent")?;
    let below = format!(in rt.alloc(); "{path}/stops.txt")?;
    assert!(rt; taken(&rt, path.as_str(), 10)?.is_none());
    assert!(rt; taken(&rt, below.as_str(), 10)?.is_none());
    fs::write(&rt, path.as_str(), "a file in a folder's place")?;
    let in_file = taken(&rt, below.as_str(), 10);
    fs::remove_file(&rt, path.as_str())?;
    assert!(rt; in_file?.is_none());
    fs::create_dir(&rt, path.as_str())?;
    let folder = taken(&rt, path.as_str(), 10);
    fs::remove_dir(&rt, path.as_str())?;
    assert!(rt; folder?.is_none());
    Ok(())
}

#[test]
fn link_to_itself_is_a_fault(rt: HostRuntime) -> Result<(), Fail> {
    let path = own_path(&rt, "link")?;
    symlink(&rt, path.as_str(), path.as_str())?;
    let link = taken(&rt, path.as_str(), 10);
    fs::remove_file(&rt, path.as_str())?;
    assert!(rt; link.err() == Some(Taken::ReadFault));
    Ok(())
}

#[test]
fn file_that_may_not_be_read_is_a_fault(rt: HostRuntime) -> Result<(), Fail> {
    let path = own_path(&rt, "closed")?;
    fs::write(&rt, path.as_str(), "closed")?;
    let is_root = fs::metadata(&rt, path.as_str())?.uid() == 0;
    fs::set_permissions(&rt, path.as_str(), Permissions::from_mode(0))?;
    let closed = taken(&rt, path.as_str(), 10);
    fs::remove_file(&rt, path.as_str())?;
    if is_root {
        eprintln!(rt; "root may read every file, so this test saw no refusal")?;
        return Ok(());
    }
    assert!(rt; closed.err() == Some(Taken::ReadFault));
    Ok(())
}
