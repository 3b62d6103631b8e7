use crate::value::ExcKept;
use crate::{Cause, Cell, ClassId, Exc, MethodTy, Num, Ty, Value};
use mh_base::{Copied, NoMemory};
use std::alloc::Global;

impl Copied for ClassId {
    fn copy(&self, _alloc: Global) -> Result<ClassId, NoMemory> {
        Ok(*self)
    }
}

impl Copied for Num {
    fn copy(&self, _alloc: Global) -> Result<Num, NoMemory> {
        Ok(*self)
    }
}

impl Copied for Ty {
    fn copy(&self, _alloc: Global) -> Result<Ty, NoMemory> {
        Ok(*self)
    }
}

impl Copied for MethodTy {
    fn copy(&self, _alloc: Global) -> Result<MethodTy, NoMemory> {
        Ok(MethodTy {
            params: self.params.copy()?,
            ret: self.ret,
        })
    }
}

impl Copied for Cause {
    fn copy(&self, _alloc: Global) -> Result<Cause, NoMemory> {
        Ok(Cause {
            class: self.class,
            message: self.message.copy()?,
        })
    }
}

impl Copied for Exc {
    fn copy(&self, _alloc: Global) -> Result<Exc, NoMemory> {
        match &self.kept {
            ExcKept::Bare(class) => Ok(Exc {
                kept: ExcKept::Bare(*class),
            }),
            ExcKept::Said(parts) => {
                let parts = parts.share()?;
                Ok(Exc {
                    kept: ExcKept::Said(parts),
                })
            }
        }
    }
}

impl Copied for Cell {
    fn copy(&self, alloc: Global) -> Result<Cell, NoMemory> {
        Ok(match self {
            Cell::Prim(number) => Cell::Prim(*number),
            Cell::Boxed(number) => Cell::Boxed(*number),
            Cell::Text(text) => Cell::Text(text.copy()?),
            Cell::Object(class, number) => Cell::Object(*class, *number),
            Cell::Thrown(exc) => Cell::Thrown(exc.copy(alloc)?),
            Cell::Null => Cell::Null,
        })
    }
}

impl Copied for Value {
    fn copy(&self, alloc: Global) -> Result<Value, NoMemory> {
        Ok(match self {
            Value::Prim(number) => Value::Prim(*number),
            Value::Boxed(number) => Value::Boxed(*number),
            Value::Text(text) => Value::Text(text.copy()?),
            Value::Object(class, number) => Value::Object(*class, *number),
            Value::Thrown(exc) => Value::Thrown(exc.copy(alloc)?),
            Value::Array(component, cells) => Value::Array(*component, cells.copy()?),
            Value::Null => Value::Null,
        })
    }
}
