//! Reading and writing class files without loss (The Java Virtual Machine Specification, second
//! edition, chapter 4, with the changes of Java 5).
#![tactic(auto)]

mod attributes;
mod code;
mod fault;
mod kinds;
mod known;
mod members;
mod numbers;
mod pool;
mod reading;
mod scope;
mod tables;
mod writing;

pub use class_file::{
    AccessFlags, Attribute, ClassFile, CodeAttr, CodeAttribute, CodeContent, Content,
    ExceptionEntry, InnerClass, LineRow, Member, PoolEntry, VariableRow,
};
pub use fault::ClassFault;
pub use reading::read_class;
pub use writing::write_class;
