// The temporaries of a body.

ghost use Rattle.std.specs.Prelude.{◌≡◌, ◌+◌, ◌<◌, ◌≤◌, ◌^◌, ◌&&◌, [], ◌∷◌, true, length};
ghost use Rattle.wasm_num.specs.declared.ValType.TheVariants.{I32};
ghost use Rattle.hook_select.specs.declared.GroupName.TheVariants as groups;
ghost use Rattle.hook_select.specs.Groups.{has};
ghost use Rattle.module_ast.specs.Structure.{plain_of, IsPlainInstr, before, Tree, done};
ghost use Rattle.module_ast.specs.Places.{code_size};
ghost use Rattle.module_ast.specs.Validation.Limits.{longest_file};
ghost use Rattle.rewrite_needs.specs.Watching.{or_none, kept_temps};
ghost use Rattle.rewrite_needs.specs.Temporaries.{branch_temps, pool_of, body_temps};
ghost use Rattle.rewrite_needs.specs.Room.{room_for, with_one, wider, widened, widened_where, no_room, instr_temps, behind_code, behind_part};

use crate::site::Site;
use crate::watching::{Telling, is_untold, telling_of};
use hook_select::{GroupName, Hooks};
use i64_split::Pool;
use module_ast::code::{Code, Instr};
use wasm_num::ValType;

// How many temporaries of each type are needed at once.
#[derive(Clone, Copy)]
pub struct Room {
    pub ints: usize,
    pub longs: usize,
}

impl Room {
    // Room for values of these types at once.
    fn of(types: &[ValType]) -> Room
        ensures is { result ≡ room_for types.now }
        ensures few { result.ints + result.longs ≡ length types.now }
    {
        let (mut ints, mut longs) = (0, 0);
        for ty in types {
            match ty {
                ValType::I32 => ints += 1,
                ValType::I64 => longs += 1,
            }
        }
        Room { ints, longs }
    }

    // Room for one value more, which has this type.
    fn with(self, ty: ValType) -> Room
        requires { self.ints + self.longs + 1 < 2 ^ 64 }
        ensures { result ≡ with_one self ty }
    {
        let Room { ints, longs } = self;
        match ty {
            ValType::I32 => Room {
                ints: ints + 1,
                longs,
            },
            ValType::I64 => Room {
                ints,
                longs: longs + 1,
            },
        }
    }

    // Room that is enough for either.
    fn or(self, more: Room) -> Room
        ensures { result ≡ wider self more }
    {
        Room {
            ints: self.ints.max(more.ints),
            longs: self.longs.max(more.longs),
        }
    }

    // Room that is enough for values of these types too, if they are wanted.
    fn or_types(self, wanted: bool, types: &[ValType]) -> Room
        ensures { result ≡ widened_where wanted self types.now }
    {
        if wanted {
            self.or(Room::of(types))
        } else {
            self
        }
    }

    // Room that is enough for an i32 and values of these types too, if they are wanted.
    fn or_behind_i32(self, wanted: bool, types: &[ValType]) -> Room
        ensures { result ≡ widened_where wanted self (I32 ∷ types.now) }
    {
        if wanted {
            self.or(Room::of(types).with(ValType::I32))
        } else {
            self
        }
    }

    // Room that is enough for what is told of an instruction too.
    fn or_told(self, told: &Telling) -> Room
        ensures { result ≡ widened self (kept_temps true told.now) }
    {
        match told {
            Telling::Dropped(ty) => self.or_types(true, &[*ty]),
            Telling::Kept(_, _, types) => self.or_types(true, types.as_slice()),
            _ => self,
        }
    }

    // Room that is enough for the template of a branch or a call too.
    fn or_branch(self, site: &Site, hooks: Hooks, instr: &Instr) -> Room
        ensures { result ≡ widened self (or_none (branch_temps hooks site.now) (plain_of instr.now)) }
    {
        let one = [ValType::I32];
        match instr {
            Instr::BrIf(_) => {
                let wanted = hooks.has(GroupName::BrIf) || hooks.has(GroupName::End);
                self.or_types(wanted, &one)
            }
            Instr::BrTable(_, _) => {
                let wanted = hooks.has(GroupName::BrTable) || hooks.has(GroupName::End);
                self.or_types(wanted, &one)
            }
            Instr::Return => self.or_types(hooks.has(GroupName::Return), site.results()),
            Instr::Call(func) => {
                let wanted = hooks.has(GroupName::Call);
                let (params, results) = site.callee_type(*func);
                self.or_types(wanted, params).or_types(wanted, results)
            }
            Instr::CallIndirect(ty) => {
                let wanted = hooks.has(GroupName::Call);
                let (params, results) = site.indirect_type(*ty);
                self.or_behind_i32(wanted, params).or_types(wanted, results)
            }
            _ => self,
        }
    }

    // Room that is enough for the template of an instruction too.
    fn or_instr(self, site: &Site, hooks: Hooks, position: u32, instr: &Instr) -> Room
        ensures { result ≡ widened self (instr_temps hooks site.now position instr.now) }
    {
        if is_untold(&hooks, instr) {
            return self;
        }
        match telling_of(site, position, instr) {
            Some(told) => self.or_told(&told),
            None => self.or_branch(site, hooks, instr),
        }
    }
}

// How far a body has been measured: the room that the templates so far need, whether the next instruction is live, and the
// position of that instruction.
#[derive(Clone, Copy)]
pub struct Measured {
    pub room: Room,
    pub live: bool,
    pub position: u32,
}

impl Measured {
    // Room that is enough for values of these types too, if they are wanted and the next instruction is live.
    fn or_types(self, wanted: bool, types: &[ValType]) -> Room
        ensures { result ≡ widened_where (self.live && wanted) self.room types.now }
    {
        self.room.or_types(self.live && wanted, types)
    }

    // The measure after an instruction that has no sequence in it.
    fn behind_plain(self, site: &Site, hooks: Hooks, instr: &Instr) -> Measured
        requires few { self.position + 1 < 2 ^ 32 }
        requires plain { IsPlainInstr instr.now }
        ensures { (k : Tree) → behind_code hooks site.now k result ≡ behind_code hooks site.now (before instr.now k) self }
    {
        let position = self.position + 1;
        if !self.live {
            return Measured { position, ..self };
        }
        Measured {
            room: self.room.or_instr(site, hooks, self.position, instr),
            live: instr.goes_on(),
            position,
        }
    }

    // The measure after an opcode, with this room.
    fn with_opcode(self, room: Room) -> Measured
        requires { self.position + 1 < 2 ^ 32 }
        ensures { result ≡ record self { room = room; position = self.position + 1 } }
    {
        Measured {
            room,
            live: self.live,
            position: self.position + 1,
        }
    }

    // The measure after the opcode of an `if`.
    fn behind_if(self, hooks: Hooks) -> Measured
        requires { self.position + 1 < 2 ^ 32 }
        ensures { result ≡ record self { room = widened_where (self.live && has hooks groups.If) self.room (I32 ∷ []); position = self.position + 1 } }
    {
        let room = self.or_types(hooks.has(GroupName::If), &[ValType::I32]);
        self.with_opcode(room)
    }

    // The measure after a part of a body and its `else` or `end`. Code there is live if the part begins live.
    #[cycle(measured)]
    fn behind_part(self, site: &Site, hooks: Hooks, code: &Code) -> Measured
        requires { self.position + code_size code.now + 1 < 2 ^ 32 }
        ensures { result ≡ behind_part hooks site.now code.now self }
    {
        let inside = self.behind_code(site, hooks, code);
        Measured {
            room: inside.room,
            live: self.live,
            position: inside.position + 1,
        }
    }

    // The measure after a sequence.
    #[cycle(measured)]
    fn behind_code(self, site: &Site, hooks: Hooks, code: &Code) -> Measured
        requires { self.position + code_size code.now < 2 ^ 32 }
        ensures { result ≡ behind_code hooks site.now code.now self }
    {
        let mut here = self;
        for instr in code.as_slice() {
            here = here.behind_instr(site, hooks, instr);
        }
        here
    }

    // The measure after an instruction.
    #[cycle(measured)]
    fn behind_instr(self, site: &Site, hooks: Hooks, instr: &Instr) -> Measured
        requires { self.position + code_size (before instr.now done) < 2 ^ 32 }
        ensures { (k : Tree) → behind_code hooks site.now k result ≡ behind_code hooks site.now (before instr.now k) self }
    {
        match instr {
            Instr::Block(_, body) | Instr::Loop(_, body) => {
                self.with_opcode(self.room).behind_part(site, hooks, body)
            }
            Instr::If(_, body) => self.behind_if(hooks).behind_part(site, hooks, body),
            Instr::IfElse(_, body, other) => {
                let then_part = self.behind_if(hooks).behind_part(site, hooks, body);
                then_part.behind_part(site, hooks, other)
            }
            _ => self.behind_plain(site, hooks, instr),
        }
    }
}

// How many temporaries of each type one template of the function needs at most, found place by place.
fn room_of(site: &Site, hooks: Hooks) -> Room
    requires { code_size site.now.body.code + 1 ≤ longest_file }
    ensures { result ≡ widened no_room (body_temps hooks site.now) }
{
    let entry = Measured {
        room: Room { ints: 0, longs: 0 },
        live: true,
        position: 0,
    };
    let end = entry.behind_code(site, hooks, &site.body().code);
    end.or_types(hooks.has(GroupName::Return), site.results())
}

/// The temporaries that the hooks of a function need if these groups are selected. They come after the function's own locals,
/// and there are as many of each type as one template needs at most. The body has at most 2 ^ 28 positions, and the indices of
/// all locals, temporaries included, are below 2 ^ 32. It takes time in proportion to the body.
pub fn pool_of(site: &Site, hooks: Hooks) -> Pool
    requires few { code_size site.now.body.code + 1 ≤ longest_file }
    requires fits { let pool = pool_of hooks site.now in pool.base + pool.ints + pool.longs < 2 ^ 32 }
    ensures { result ≡ pool_of hooks site.now }
{
    let room = room_of(site, hooks);
    Pool {
        base: site.local_count() as u32,
        ints: room.ints as u32,
        longs: room.longs as u32,
    }
}
