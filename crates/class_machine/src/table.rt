//! What each opcode means.

ghost use Rattle.std.specs.Prelude.{◌≡◌, slice_get};
ghost use Rattle.std.specs.Option.{option_flatten};
ghost use Rattle.class_machine.specs.Meanings.{meaning_of};

use crate::kinds::{
    Access, Binary, Constant, Conversion, Division, Element, Kind, Mode, Shift, Slots, Test,
};
use crate::meaning::{Basic, Meaning};

/// What each number below 202 means as an opcode (JVMS 6, 9). `wide` is part of the instruction
/// behind it.
static MEANINGS: [Option<Meaning>; 202] = [
    Some(Meaning::Basic(Basic::Nothing)), // 0 nop
    Some(Meaning::Basic(Basic::Constant(Constant::Null))), // 1 aconst_null
    Some(Meaning::Basic(Basic::Constant(Constant::Int(-1)))), // 2 iconst_m1
    Some(Meaning::Basic(Basic::Constant(Constant::Int(0)))), // 3 iconst_0
    Some(Meaning::Basic(Basic::Constant(Constant::Int(1)))), // 4 iconst_1
    Some(Meaning::Basic(Basic::Constant(Constant::Int(2)))), // 5 iconst_2
    Some(Meaning::Basic(Basic::Constant(Constant::Int(3)))), // 6 iconst_3
    Some(Meaning::Basic(Basic::Constant(Constant::Int(4)))), // 7 iconst_4
    Some(Meaning::Basic(Basic::Constant(Constant::Int(5)))), // 8 iconst_5
    Some(Meaning::Basic(Basic::Constant(Constant::Long(0)))), // 9 lconst_0
    Some(Meaning::Basic(Basic::Constant(Constant::Long(1)))), // 10 lconst_1
    Some(Meaning::Basic(Basic::Constant(Constant::Float(0)))), // 11 fconst_0
    Some(Meaning::Basic(Basic::Constant(Constant::Float(0x3f800000)))), // 12 fconst_1
    Some(Meaning::Basic(Basic::Constant(Constant::Float(0x40000000)))), // 13 fconst_2
    Some(Meaning::Basic(Basic::Constant(Constant::Double(0)))), // 14 dconst_0
    Some(Meaning::Basic(Basic::Constant(Constant::Double(0x3ff0000000000000)))), // 15 dconst_1
    Some(Meaning::Push), // 16 bipush
    Some(Meaning::Push), // 17 sipush
    Some(Meaning::LoadConstant), // 18 ldc
    Some(Meaning::LoadConstant), // 19 ldc_w
    Some(Meaning::LoadConstant), // 20 ldc2_w
    Some(Meaning::Load(Kind::Int)), // 21 iload
    Some(Meaning::Load(Kind::Long)), // 22 lload
    Some(Meaning::Load(Kind::Float)), // 23 fload
    Some(Meaning::Load(Kind::Double)), // 24 dload
    Some(Meaning::Load(Kind::Reference)), // 25 aload
    Some(Meaning::Basic(Basic::Load(Kind::Int, 0))), // 26 iload_0
    Some(Meaning::Basic(Basic::Load(Kind::Int, 1))), // 27 iload_1
    Some(Meaning::Basic(Basic::Load(Kind::Int, 2))), // 28 iload_2
    Some(Meaning::Basic(Basic::Load(Kind::Int, 3))), // 29 iload_3
    Some(Meaning::Basic(Basic::Load(Kind::Long, 0))), // 30 lload_0
    Some(Meaning::Basic(Basic::Load(Kind::Long, 1))), // 31 lload_1
    Some(Meaning::Basic(Basic::Load(Kind::Long, 2))), // 32 lload_2
    Some(Meaning::Basic(Basic::Load(Kind::Long, 3))), // 33 lload_3
    Some(Meaning::Basic(Basic::Load(Kind::Float, 0))), // 34 fload_0
    Some(Meaning::Basic(Basic::Load(Kind::Float, 1))), // 35 fload_1
    Some(Meaning::Basic(Basic::Load(Kind::Float, 2))), // 36 fload_2
    Some(Meaning::Basic(Basic::Load(Kind::Float, 3))), // 37 fload_3
    Some(Meaning::Basic(Basic::Load(Kind::Double, 0))), // 38 dload_0
    Some(Meaning::Basic(Basic::Load(Kind::Double, 1))), // 39 dload_1
    Some(Meaning::Basic(Basic::Load(Kind::Double, 2))), // 40 dload_2
    Some(Meaning::Basic(Basic::Load(Kind::Double, 3))), // 41 dload_3
    Some(Meaning::Basic(Basic::Load(Kind::Reference, 0))), // 42 aload_0
    Some(Meaning::Basic(Basic::Load(Kind::Reference, 1))), // 43 aload_1
    Some(Meaning::Basic(Basic::Load(Kind::Reference, 2))), // 44 aload_2
    Some(Meaning::Basic(Basic::Load(Kind::Reference, 3))), // 45 aload_3
    Some(Meaning::Basic(Basic::ArrayLoad(Element::Int))), // 46 iaload
    Some(Meaning::Basic(Basic::ArrayLoad(Element::Long))), // 47 laload
    Some(Meaning::Basic(Basic::ArrayLoad(Element::Float))), // 48 faload
    Some(Meaning::Basic(Basic::ArrayLoad(Element::Double))), // 49 daload
    Some(Meaning::Basic(Basic::ArrayLoad(Element::Reference))), // 50 aaload
    Some(Meaning::Basic(Basic::ArrayLoad(Element::Byte))), // 51 baload
    Some(Meaning::Basic(Basic::ArrayLoad(Element::Char))), // 52 caload
    Some(Meaning::Basic(Basic::ArrayLoad(Element::Short))), // 53 saload
    Some(Meaning::Store(Kind::Int)), // 54 istore
    Some(Meaning::Store(Kind::Long)), // 55 lstore
    Some(Meaning::Store(Kind::Float)), // 56 fstore
    Some(Meaning::Store(Kind::Double)), // 57 dstore
    Some(Meaning::Store(Kind::Reference)), // 58 astore
    Some(Meaning::Basic(Basic::Store(Kind::Int, 0))), // 59 istore_0
    Some(Meaning::Basic(Basic::Store(Kind::Int, 1))), // 60 istore_1
    Some(Meaning::Basic(Basic::Store(Kind::Int, 2))), // 61 istore_2
    Some(Meaning::Basic(Basic::Store(Kind::Int, 3))), // 62 istore_3
    Some(Meaning::Basic(Basic::Store(Kind::Long, 0))), // 63 lstore_0
    Some(Meaning::Basic(Basic::Store(Kind::Long, 1))), // 64 lstore_1
    Some(Meaning::Basic(Basic::Store(Kind::Long, 2))), // 65 lstore_2
    Some(Meaning::Basic(Basic::Store(Kind::Long, 3))), // 66 lstore_3
    Some(Meaning::Basic(Basic::Store(Kind::Float, 0))), // 67 fstore_0
    Some(Meaning::Basic(Basic::Store(Kind::Float, 1))), // 68 fstore_1
    Some(Meaning::Basic(Basic::Store(Kind::Float, 2))), // 69 fstore_2
    Some(Meaning::Basic(Basic::Store(Kind::Float, 3))), // 70 fstore_3
    Some(Meaning::Basic(Basic::Store(Kind::Double, 0))), // 71 dstore_0
    Some(Meaning::Basic(Basic::Store(Kind::Double, 1))), // 72 dstore_1
    Some(Meaning::Basic(Basic::Store(Kind::Double, 2))), // 73 dstore_2
    Some(Meaning::Basic(Basic::Store(Kind::Double, 3))), // 74 dstore_3
    Some(Meaning::Basic(Basic::Store(Kind::Reference, 0))), // 75 astore_0
    Some(Meaning::Basic(Basic::Store(Kind::Reference, 1))), // 76 astore_1
    Some(Meaning::Basic(Basic::Store(Kind::Reference, 2))), // 77 astore_2
    Some(Meaning::Basic(Basic::Store(Kind::Reference, 3))), // 78 astore_3
    Some(Meaning::Basic(Basic::ArrayStore(Element::Int))), // 79 iastore
    Some(Meaning::Basic(Basic::ArrayStore(Element::Long))), // 80 lastore
    Some(Meaning::Basic(Basic::ArrayStore(Element::Float))), // 81 fastore
    Some(Meaning::Basic(Basic::ArrayStore(Element::Double))), // 82 dastore
    Some(Meaning::Basic(Basic::ArrayStore(Element::Reference))), // 83 aastore
    Some(Meaning::Basic(Basic::ArrayStore(Element::Byte))), // 84 bastore
    Some(Meaning::Basic(Basic::ArrayStore(Element::Char))), // 85 castore
    Some(Meaning::Basic(Basic::ArrayStore(Element::Short))), // 86 sastore
    Some(Meaning::Basic(Basic::Pop(Slots::One))), // 87 pop
    Some(Meaning::Basic(Basic::Pop(Slots::Two))), // 88 pop2
    Some(Meaning::Basic(Basic::Duplicate(Slots::One, Slots::Zero))), // 89 dup
    Some(Meaning::Basic(Basic::Duplicate(Slots::One, Slots::One))), // 90 dup_x1
    Some(Meaning::Basic(Basic::Duplicate(Slots::One, Slots::Two))), // 91 dup_x2
    Some(Meaning::Basic(Basic::Duplicate(Slots::Two, Slots::Zero))), // 92 dup2
    Some(Meaning::Basic(Basic::Duplicate(Slots::Two, Slots::One))), // 93 dup2_x1
    Some(Meaning::Basic(Basic::Duplicate(Slots::Two, Slots::Two))), // 94 dup2_x2
    Some(Meaning::Basic(Basic::Swap)), // 95 swap
    Some(Meaning::Basic(Basic::IntBinary(Binary::Add))), // 96 iadd
    Some(Meaning::Basic(Basic::LongBinary(Binary::Add))), // 97 ladd
    Some(Meaning::Basic(Basic::Unmodelled {
        op: 98,
        from: Kind::Float,
        both: true,
        to: Kind::Float,
    })), // 98 fadd
    Some(Meaning::Basic(Basic::Unmodelled {
        op: 99,
        from: Kind::Double,
        both: true,
        to: Kind::Double,
    })), // 99 dadd
    Some(Meaning::Basic(Basic::IntBinary(Binary::Subtract))), // 100 isub
    Some(Meaning::Basic(Basic::LongBinary(Binary::Subtract))), // 101 lsub
    Some(Meaning::Basic(Basic::Unmodelled {
        op: 102,
        from: Kind::Float,
        both: true,
        to: Kind::Float,
    })), // 102 fsub
    Some(Meaning::Basic(Basic::Unmodelled {
        op: 103,
        from: Kind::Double,
        both: true,
        to: Kind::Double,
    })), // 103 dsub
    Some(Meaning::Basic(Basic::IntBinary(Binary::Multiply))), // 104 imul
    Some(Meaning::Basic(Basic::LongBinary(Binary::Multiply))), // 105 lmul
    Some(Meaning::Basic(Basic::Unmodelled {
        op: 106,
        from: Kind::Float,
        both: true,
        to: Kind::Float,
    })), // 106 fmul
    Some(Meaning::Basic(Basic::Unmodelled {
        op: 107,
        from: Kind::Double,
        both: true,
        to: Kind::Double,
    })), // 107 dmul
    Some(Meaning::Basic(Basic::IntDivide(Division::Quotient))), // 108 idiv
    Some(Meaning::Basic(Basic::LongDivide(Division::Quotient))), // 109 ldiv
    Some(Meaning::Basic(Basic::Unmodelled {
        op: 110,
        from: Kind::Float,
        both: true,
        to: Kind::Float,
    })), // 110 fdiv
    Some(Meaning::Basic(Basic::Unmodelled {
        op: 111,
        from: Kind::Double,
        both: true,
        to: Kind::Double,
    })), // 111 ddiv
    Some(Meaning::Basic(Basic::IntDivide(Division::Remainder))), // 112 irem
    Some(Meaning::Basic(Basic::LongDivide(Division::Remainder))), // 113 lrem
    Some(Meaning::Basic(Basic::Unmodelled {
        op: 114,
        from: Kind::Float,
        both: true,
        to: Kind::Float,
    })), // 114 frem
    Some(Meaning::Basic(Basic::Unmodelled {
        op: 115,
        from: Kind::Double,
        both: true,
        to: Kind::Double,
    })), // 115 drem
    Some(Meaning::Basic(Basic::IntNegate)), // 116 ineg
    Some(Meaning::Basic(Basic::LongNegate)), // 117 lneg
    Some(Meaning::Basic(Basic::Unmodelled {
        op: 118,
        from: Kind::Float,
        both: false,
        to: Kind::Float,
    })), // 118 fneg
    Some(Meaning::Basic(Basic::Unmodelled {
        op: 119,
        from: Kind::Double,
        both: false,
        to: Kind::Double,
    })), // 119 dneg
    Some(Meaning::Basic(Basic::IntShift(Shift::Left))), // 120 ishl
    Some(Meaning::Basic(Basic::LongShift(Shift::Left))), // 121 lshl
    Some(Meaning::Basic(Basic::IntShift(Shift::Right))), // 122 ishr
    Some(Meaning::Basic(Basic::LongShift(Shift::Right))), // 123 lshr
    Some(Meaning::Basic(Basic::IntShift(Shift::Unsigned))), // 124 iushr
    Some(Meaning::Basic(Basic::LongShift(Shift::Unsigned))), // 125 lushr
    Some(Meaning::Basic(Basic::IntBinary(Binary::And))), // 126 iand
    Some(Meaning::Basic(Basic::LongBinary(Binary::And))), // 127 land
    Some(Meaning::Basic(Basic::IntBinary(Binary::Or))), // 128 ior
    Some(Meaning::Basic(Basic::LongBinary(Binary::Or))), // 129 lor
    Some(Meaning::Basic(Basic::IntBinary(Binary::Xor))), // 130 ixor
    Some(Meaning::Basic(Basic::LongBinary(Binary::Xor))), // 131 lxor
    Some(Meaning::Increment), // 132 iinc
    Some(Meaning::Basic(Basic::Convert(Conversion::IntToLong))), // 133 i2l
    Some(Meaning::Basic(Basic::Unmodelled {
        op: 134,
        from: Kind::Int,
        both: false,
        to: Kind::Float,
    })), // 134 i2f
    Some(Meaning::Basic(Basic::Unmodelled {
        op: 135,
        from: Kind::Int,
        both: false,
        to: Kind::Double,
    })), // 135 i2d
    Some(Meaning::Basic(Basic::Convert(Conversion::LongToInt))), // 136 l2i
    Some(Meaning::Basic(Basic::Unmodelled {
        op: 137,
        from: Kind::Long,
        both: false,
        to: Kind::Float,
    })), // 137 l2f
    Some(Meaning::Basic(Basic::Unmodelled {
        op: 138,
        from: Kind::Long,
        both: false,
        to: Kind::Double,
    })), // 138 l2d
    Some(Meaning::Basic(Basic::Unmodelled {
        op: 139,
        from: Kind::Float,
        both: false,
        to: Kind::Int,
    })), // 139 f2i
    Some(Meaning::Basic(Basic::Unmodelled {
        op: 140,
        from: Kind::Float,
        both: false,
        to: Kind::Long,
    })), // 140 f2l
    Some(Meaning::Basic(Basic::Unmodelled {
        op: 141,
        from: Kind::Float,
        both: false,
        to: Kind::Double,
    })), // 141 f2d
    Some(Meaning::Basic(Basic::Unmodelled {
        op: 142,
        from: Kind::Double,
        both: false,
        to: Kind::Int,
    })), // 142 d2i
    Some(Meaning::Basic(Basic::Unmodelled {
        op: 143,
        from: Kind::Double,
        both: false,
        to: Kind::Long,
    })), // 143 d2l
    Some(Meaning::Basic(Basic::Unmodelled {
        op: 144,
        from: Kind::Double,
        both: false,
        to: Kind::Float,
    })), // 144 d2f
    Some(Meaning::Basic(Basic::Convert(Conversion::IntToByte))), // 145 i2b
    Some(Meaning::Basic(Basic::Convert(Conversion::IntToChar))), // 146 i2c
    Some(Meaning::Basic(Basic::Convert(Conversion::IntToShort))), // 147 i2s
    Some(Meaning::Basic(Basic::CompareLong)), // 148 lcmp
    Some(Meaning::Basic(Basic::Unmodelled {
        op: 149,
        from: Kind::Float,
        both: true,
        to: Kind::Int,
    })), // 149 fcmpl
    Some(Meaning::Basic(Basic::Unmodelled {
        op: 150,
        from: Kind::Float,
        both: true,
        to: Kind::Int,
    })), // 150 fcmpg
    Some(Meaning::Basic(Basic::Unmodelled {
        op: 151,
        from: Kind::Double,
        both: true,
        to: Kind::Int,
    })), // 151 dcmpl
    Some(Meaning::Basic(Basic::Unmodelled {
        op: 152,
        from: Kind::Double,
        both: true,
        to: Kind::Int,
    })), // 152 dcmpg
    Some(Meaning::Basic(Basic::IfInt(Test::Equal))), // 153 ifeq
    Some(Meaning::Basic(Basic::IfInt(Test::NotEqual))), // 154 ifne
    Some(Meaning::Basic(Basic::IfInt(Test::Less))), // 155 iflt
    Some(Meaning::Basic(Basic::IfInt(Test::AtLeast))), // 156 ifge
    Some(Meaning::Basic(Basic::IfInt(Test::Greater))), // 157 ifgt
    Some(Meaning::Basic(Basic::IfInt(Test::AtMost))), // 158 ifle
    Some(Meaning::Basic(Basic::IfInts(Test::Equal))), // 159 if_icmpeq
    Some(Meaning::Basic(Basic::IfInts(Test::NotEqual))), // 160 if_icmpne
    Some(Meaning::Basic(Basic::IfInts(Test::Less))), // 161 if_icmplt
    Some(Meaning::Basic(Basic::IfInts(Test::AtLeast))), // 162 if_icmpge
    Some(Meaning::Basic(Basic::IfInts(Test::Greater))), // 163 if_icmpgt
    Some(Meaning::Basic(Basic::IfInts(Test::AtMost))), // 164 if_icmple
    Some(Meaning::Basic(Basic::IfReferences(true))), // 165 if_acmpeq
    Some(Meaning::Basic(Basic::IfReferences(false))), // 166 if_acmpne
    Some(Meaning::Basic(Basic::Goto)), // 167 goto
    Some(Meaning::Basic(Basic::Jsr)), // 168 jsr
    Some(Meaning::Ret), // 169 ret
    Some(Meaning::Switch), // 170 tableswitch
    Some(Meaning::Switch), // 171 lookupswitch
    Some(Meaning::Basic(Basic::Return(Some(Kind::Int)))), // 172 ireturn
    Some(Meaning::Basic(Basic::Return(Some(Kind::Long)))), // 173 lreturn
    Some(Meaning::Basic(Basic::Return(Some(Kind::Float)))), // 174 freturn
    Some(Meaning::Basic(Basic::Return(Some(Kind::Double)))), // 175 dreturn
    Some(Meaning::Basic(Basic::Return(Some(Kind::Reference)))), // 176 areturn
    Some(Meaning::Basic(Basic::Return(None))), // 177 return
    Some(Meaning::Field(Access::GetStatic)), // 178 getstatic
    Some(Meaning::Field(Access::PutStatic)), // 179 putstatic
    Some(Meaning::Field(Access::GetField)), // 180 getfield
    Some(Meaning::Field(Access::PutField)), // 181 putfield
    Some(Meaning::Invoke(Mode::Virtual)), // 182 invokevirtual
    Some(Meaning::Invoke(Mode::Special)), // 183 invokespecial
    Some(Meaning::Invoke(Mode::Static)), // 184 invokestatic
    Some(Meaning::Invoke(Mode::Interface)), // 185 invokeinterface
    None, // 186 not used
    Some(Meaning::New), // 187 new
    Some(Meaning::NewArray), // 188 newarray
    Some(Meaning::NewReferenceArray), // 189 anewarray
    Some(Meaning::Basic(Basic::ArrayLength)), // 190 arraylength
    Some(Meaning::Basic(Basic::Throw)), // 191 athrow
    Some(Meaning::CheckCast), // 192 checkcast
    Some(Meaning::InstanceOf), // 193 instanceof
    Some(Meaning::Basic(Basic::EnterMonitor)), // 194 monitorenter
    Some(Meaning::Basic(Basic::LeaveMonitor)), // 195 monitorexit
    None, // 196 wide
    Some(Meaning::NewArrays), // 197 multianewarray
    Some(Meaning::Basic(Basic::IfNull(true))), // 198 ifnull
    Some(Meaning::Basic(Basic::IfNull(false))), // 199 ifnonnull
    Some(Meaning::Basic(Basic::Goto)), // 200 goto_w
    Some(Meaning::Basic(Basic::Jsr)), // 201 jsr_w
];

/// The row of a number.
fn row(table: &[Option<Meaning>], op: u8) -> Option<Meaning>
    ensures { result ≡ option_flatten (slice_get table.now op) }
{
    if (op as usize) < table.len() {
        table[op as usize]
    } else {
        None
    }
}

/// What an opcode means, or nothing where the number is no opcode or is `wide`.
pub fn meaning_of(op: u8) -> Option<Meaning>
    ensures { result ≡ meaning_of op }
{
    row(&MEANINGS, op)
}
