ghost use Rattle.std.specs.Prelude.{◌≡◌, ◌<◌, ◌^◌, ◌++◌, OnOk};
ghost use Rattle.mh_made_class.specs.Constants.{u2, u4};

use mh_base::NoMemory;

/// Puts a number at the end of a file, in two bytes, the highest first.
pub(crate) fn push_u2(file: &mut Vec<u8>, number: usize) -> Result<(), NoMemory>
    requires { number < 2 ^ 16 }
    ensures { OnOk result (file.new.items ≡ file.old.items ++ u2 number) }
{
    file.extend_from_slice(&(number as u16).to_be_bytes())?;
    Ok(())
}

/// Puts a number at the end of a file, in four bytes, the highest first.
pub(crate) fn push_u4(file: &mut Vec<u8>, number: usize) -> Result<(), NoMemory>
    requires { number < 2 ^ 32 }
    ensures { OnOk result (file.new.items ≡ file.old.items ++ u4 number) }
{
    file.extend_from_slice(&(number as u32).to_be_bytes())?;
    Ok(())
}
